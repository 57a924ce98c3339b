// After a part has run, the constructs above it go on, up to the root or to one that waits or has an event pending.
ghost use Rattle.std.specs.Prelude.{◌≡◌};
ghost use Rattle.theory.specs.State.{resume};
ghost use Rattle.theory.specs.Part.{past_left, goes_on};
ghost use Rattle.table.specs.Constructs.{tree};
ghost use Rattle.table.specs.Named.{par_of};
ghost use Rattle.walks.specs.Walks.{array_ops, how_of, left};
ghost use Rattle.engine.specs.Forks.{left_side};
ghost use Rattle.engine.specs.Parts.{Climbs};

use crate::fork::Fork;
use crate::path::Path;
use crate::resume::{fork_goes_on, if_goes_on, loop_goes_on, resume, seq_goes_on};
use table::{Construct, Kind};
use walks::exec::after_right;
use walks::{How, Running};

// After the right of an and or or whose left rests: how the left is, is asked only where it matters.
fn past_left(fork: Fork<'_>, right: How, n: u32, run: &mut Running, out: &mut [u8]) -> How
    ensures { left result run.new out.new ≡ past_left array_ops (par_of fork.entry.par) (left_side fork.entry) (how_of right) (left right run.old out.old) (resume array_ops n (left_side fork.entry)) }
{
    match right {
        How::Idle => resume(fork.left(), n, run, out),
        How::Ended | How::Broke => match resume(fork.left(), n, run, out) {
            How::Idle => right,
            _ => after_right(fork.left(), fork.par, right, run, out),
        },
        How::Waiting | How::Ringing(_) => right,
    }
}

// After the part at place k of any construct.
#[tactic(auto, using(crate::proofs::Climbing::goes_on_node, crate::proofs::Climbing::second_place), unfolding(theory::specs::Part::goes_on))]
fn goes_on(at: Construct<'_>, k: usize, how: How, n: u32, run: &mut Running, out: &mut [u8]) -> How
    ensures { left result run.new out.new ≡ goes_on array_ops n k (left how run.old out.old) (tree at.entry) }
{
    match at.kind() {
        Kind::If => {
            let right = at.second();
            if k < right.place {
                return if_goes_on(right, how, n, run, out);
            }
            how
        }
        Kind::Sequence => {
            let right = at.second();
            if k < right.place {
                return seq_goes_on(right, how, n, run, out);
            }
            how
        }
        Kind::Loop => loop_goes_on(at.first(), how, n, run, out),
        Kind::Par(par) => {
            let fork = Fork { at, par };
            if k < fork.right().place {
                return fork_goes_on(fork, how, n, run, out);
            }
            past_left(fork, how, n, run, out)
        }
        _ => how,
    }
}

// The whole program, after the part that the path leads to.
pub fn climb(path: &Path<'_>, how: How, n: u32, run: &mut Running, out: &mut [u8]) -> How
    ensures { Climbs path.now.table.now path.now.places path.now.steps n (left how run.old out.old) (left result run.new out.new) }
{
    let mut how = how;
    for step in (0..path.steps()).rev() {
        if matches!(how, How::Waiting | How::Ringing(_)) {
            return how;
        }
        let part = path.at(step + 1).place;
        how = goes_on(path.at(step), part, how, n, run, out);
    }
    how
}
