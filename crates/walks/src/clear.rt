// Clear: the fin bodies of what lives at a place and below run, left before right, and all its states are idle.
ghost use Rattle.std.specs.Prelude.{◌≡◌};
ghost use Rattle.theory.specs.State.{sweep};
ghost use Rattle.table.specs.Constructs.{tree};
ghost use Rattle.memory.specs.Acts.{arrays_of};
ghost use Rattle.walks.specs.Walks.{array_ops, cleared};

use crate::running::Running;
use crate::settle::settle;
use table::{Construct, Kind};

// Did anything live there?
#[cycle(clear)]
#[tactic(auto, using(crate::proofs::Nodes::sweep_node), unfolding(theory::specs::State::sweep))]
pub fn clear(at: Construct<'_>, run: &mut Running, out: &mut [u8]) -> bool
    ensures { cleared result run.new out.new ≡ sweep array_ops (tree at.entry) run.old.states (arrays_of run.old.memory out.old) }
{
    match at.kind() {
        // One side lives at most.
        Kind::If | Kind::Sequence => clear(at.first(), run, out) || clear(at.second(), run, out),
        Kind::Loop => clear(at.first(), run, out),
        // Where its right had not started, that is idle.
        Kind::Par(_) => {
            let held = run.states[at.place] != Running::IDLE;
            run.states[at.place] = Running::IDLE;
            let left = clear(at.first(), run, out);
            let right = held || clear(at.second(), run, out);
            if left && right {
                run.memory.tick();
            }
            left || right
        }
        Kind::Fin => {
            let lived = run.states[at.place] != Running::IDLE;
            if lived {
                run.states[at.place] = Running::IDLE;
                settle(at.first(), &mut run.memory, out);
            }
            lived
        }
        _ => {
            let lived = run.states[at.place] != Running::IDLE;
            run.states[at.place] = Running::IDLE;
            lived
        }
    }
}
