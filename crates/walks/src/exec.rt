// A fresh tree runs until it has ended, has broken, is blocked or has an event pending; n is the state of a turn at this level.
ghost use Rattle.std.specs.Prelude.{◌≡◌};
ghost use Rattle.theory.specs.State.{exec, then_right};
ghost use Rattle.table.specs.Constructs.{tree};
ghost use Rattle.table.specs.Named.{Stands, par_of};
ghost use Rattle.memory.specs.Acts.{arrays_of};
ghost use Rattle.walks.specs.Walks.{array_ops, left, AfterBody};

use crate::clear::clear;
use crate::running::{How, Running};
use memory::Memory;
use table::{Construct, Kind, Par};

// After the body of a fresh loop, which does not end at once.
pub fn after_body(how: How, memory: &mut Memory) -> How
    ensures { AfterBody how memory.old result memory.new }
{
    match how {
        How::Ended => How::Waiting,
        How::Broke => {
            memory.tick();
            How::Ended
        }
        _ => how,
    }
}

// After the right of an and or or whose left is blocked.
pub fn after_right(
    blocked: Construct<'_>,
    par: Par,
    how: How,
    run: &mut Running,
    out: &mut [u8],
) -> How
    ensures { left result run.new out.new ≡ then_right array_ops (par_of par) (tree blocked.entry) (left how run.old out.old) }
{
    match how {
        How::Idle => How::Waiting,
        How::Ended => {
            run.memory.tick();
            match par {
                Par::And => How::Waiting,
                Par::Or => {
                    clear(blocked, run, out);
                    How::Ended
                }
            }
        }
        How::Broke => {
            run.memory.tick();
            clear(blocked, run, out);
            run.memory.tick();
            How::Broke
        }
        _ => how,
    }
}

// What stands at the construct's place and below, which is idle yet.
#[cycle(exec)]
#[tactic(auto, using(crate::proofs::Nodes::exec_node), unfolding(theory::specs::State::exec))]
pub fn exec(at: Construct<'_>, n: u32, run: &mut Running, out: &mut [u8]) -> How
    ensures { left result run.new out.new ≡ exec array_ops n (tree at.entry) run.old.states (arrays_of run.old.memory out.old) }
{
    match at.kind() {
        Kind::Nothing => How::Ended,
        Kind::Act(act) => {
            run.memory.perform(act, at.name(), at.number(), out);
            run.memory.tick();
            How::Ended
        }
        Kind::Emit => {
            run.states[at.place] = n;
            run.memory.tick();
            How::Ringing(at.name())
        }
        Kind::Break => How::Broke,
        Kind::If => {
            let holds = run.memory.is_nonzero(at.name());
            run.memory.tick();
            if holds {
                exec(at.first(), n, run, out)
            } else {
                exec(at.second(), n, run, out)
            }
        }
        Kind::Sequence => exec_seq(at, n, run, out),
        Kind::Loop => {
            run.memory.tick();
            let how = exec(at.first(), n, run, out);
            after_body(how, &mut run.memory)
        }
        Kind::Par(par) => exec_par(at, par, n, run, out),
        Kind::Await(_) | Kind::Every(_) | Kind::Fin => {
            run.states[at.place] = Running::WAITING;
            How::Waiting
        }
    }
}

// The right starts where the left has ended at once.
#[cycle(exec)]
#[tactic(auto, using(crate::proofs::Nodes::exec_node), unfolding(theory::specs::State::exec))]
fn exec_seq(at: Construct<'_>, n: u32, run: &mut Running, out: &mut [u8]) -> How
    requires { Stands at.table.now at.place Kind.Sequence }
    ensures { left result run.new out.new ≡ exec array_ops n (tree at.entry) run.old.states (arrays_of run.old.memory out.old) }
{
    let how = exec(at.first(), n, run, out);
    match how {
        How::Ended => {
            run.memory.tick();
            exec(at.second(), n, run, out)
        }
        How::Broke => {
            run.memory.tick();
            How::Broke
        }
        _ => how,
    }
}

// The right starts where the left is blocked; where the left has an event pending, the right waits for its turn.
#[cycle(exec)]
#[tactic(auto, using(crate::proofs::Nodes::exec_node), unfolding(theory::specs::State::exec))]
fn exec_par(at: Construct<'_>, par: Par, n: u32, run: &mut Running, out: &mut [u8]) -> How
    requires { Stands at.table.now at.place (Kind.Par par) }
    ensures { left result run.new out.new ≡ exec array_ops n (tree at.entry) run.old.states (arrays_of run.old.memory out.old) }
{
    let first = at.first();
    let second = at.second();
    run.memory.tick();
    let how = exec(first, n, run, out);
    match how {
        How::Idle => how,
        How::Ended => {
            run.memory.tick();
            match par {
                Par::And => {
                    run.memory.tick();
                    run.memory.tick();
                    exec(second, n, run, out)
                }
                Par::Or => How::Ended,
            }
        }
        How::Broke => {
            run.memory.tick();
            run.memory.tick();
            How::Broke
        }
        How::Waiting => {
            run.memory.tick();
            run.memory.tick();
            let right = exec(second, n, run, out);
            after_right(first, par, right, run, out)
        }
        How::Ringing(_) => {
            run.states[at.place] = n;
            how
        }
    }
}
