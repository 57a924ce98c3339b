// An and or or whose right has not started: it waits for its turn.
ghost use Rattle.std.specs.Prelude.{◌≡◌, ◌<◌};
ghost use Rattle.theory.specs.State.{exec, take_turn, resume_held};
ghost use Rattle.table.specs.Constructs.{tree};
ghost use Rattle.table.specs.Named.{par_of};
ghost use Rattle.memory.specs.Acts.{arrays_of};
ghost use Rattle.walks.specs.Walks.{array_ops, how_of, left};
ghost use Rattle.engine.specs.Forks.{left_side, right_side};

use crate::fork::Fork;
use table::{Construct, Par};
use walks::exec::{after_right, exec};
use walks::{How, Running};

// The right of the and or or at this place, if it is its turn.
fn take_turn(place: usize, right: Construct<'_>, n: u32, run: &mut Running, out: &mut [u8]) -> How
    requires { place < 256 }
    ensures { left result run.new out.new ≡ take_turn array_ops n place (exec array_ops n (tree right.entry)) run.old.states (arrays_of run.old.memory out.old) }
{
    if run.states[place] == n {
        run.states[place] = Running::IDLE;
        run.memory.tick();
        run.memory.tick();
        return exec(right, n, run, out);
    }
    How::Waiting
}

// After the left of an and or or whose right has not started.
pub fn resume_held(fork: Fork<'_>, how: How, n: u32, run: &mut Running, out: &mut [u8]) -> How
    ensures { left result run.new out.new ≡ resume_held array_ops n fork.entry.at.place (par_of fork.entry.par) (left_side fork.entry) (how_of how) (left how run.old out.old) (exec array_ops n (right_side fork.entry)) }
{
    let place = fork.at.place;
    match how {
        How::Idle => take_turn(place, fork.right(), n, run, out),
        How::Ended => {
            run.memory.tick();
            if fork.par == Par::And {
                return take_turn(place, fork.right(), n, run, out);
            }
            run.states[place] = Running::IDLE;
            How::Ended
        }
        How::Broke => {
            run.memory.tick();
            run.memory.tick();
            run.states[place] = Running::IDLE;
            How::Broke
        }
        How::Waiting => {
            let right = take_turn(place, fork.right(), n, run, out);
            after_right(fork.left(), fork.par, right, run, out)
        }
        How::Ringing(_) => how,
    }
}
