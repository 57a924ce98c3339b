// The bodies of an every or a fin have no state of their own: they run to their end at once.
ghost use Rattle.std.specs.Prelude.{◌≡◌};
ghost use Rattle.theory.specs.State.{settle};
ghost use Rattle.table.specs.Constructs.{tree};
ghost use Rattle.memory.specs.Acts.{arrays_of};
ghost use Rattle.walks.specs.Walks.{array_ops};

use memory::Memory;
use table::{Construct, Kind};

// A tree of nothings, acts, ifs and sequences runs to its end.
#[cycle(settle)]
#[tactic(auto, using(crate::proofs::Nodes::settle_node), unfolding(theory::specs::State::settle))]
pub fn settle(at: Construct<'_>, memory: &mut Memory, out: &mut [u8])
    ensures { arrays_of memory.new out.new ≡ settle array_ops (tree at.entry) (arrays_of memory.old out.old) }
{
    let mut last = at;
    // From each construct to its last part: no index is counted here.
    loop {
        last = match last.kind() {
            Kind::Act(act) => {
                memory.perform(act, last.name(), last.number(), out);
                memory.tick();
                return;
            }
            Kind::If => {
                let holds = memory.is_nonzero(last.name());
                memory.tick();
                if holds { last.first() } else { last.second() }
            }
            Kind::Sequence => {
                settle(last.first(), memory, out);
                memory.tick();
                last.second()
            }
            _ => return,
        };
    }
}
