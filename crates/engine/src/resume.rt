// A tree that has begun runs on; one that is idle answers so, and nothing changes.
ghost use Rattle.std.specs.Prelude.{◌≡◌};
ghost use Rattle.theory.specs.State.{exec, resume, resume_if, resume_seq, resume_loop};
ghost use Rattle.theory.specs.Part.{par_goes_on};
ghost use Rattle.table.specs.Constructs.{tree};
ghost use Rattle.table.specs.Named.{par_of};
ghost use Rattle.memory.specs.Acts.{arrays_of};
ghost use Rattle.walks.specs.Walks.{array_ops, how_of, left};
ghost use Rattle.engine.specs.Forks.{left_side, right_side};
ghost use Rattle.engine.specs.Running.{RightAlone};

use crate::fork::Fork;
use crate::held::resume_held;
use crate::part::all_idle;
use crate::waiting::{resume_await, resume_emit, resume_every, resume_fin};
use memory::Memory;
use table::{Construct, Kind, Par};
use walks::clear::clear;
use walks::exec::{after_body, after_right, exec};
use walks::{How, Running};

// The right of an and whose left has ended.
fn right_alone(how: How, memory: &mut Memory) -> How
    ensures { RightAlone how memory.old result memory.new }
{
    match how {
        How::Idle => How::Ended,
        other => {
            memory.tick();
            other
        }
    }
}

#[cycle(resume)]
#[tactic(auto, using(crate::proofs::Climbing::resume_fork), unfolding(theory::specs::State::resume))]
pub fn resume(at: Construct<'_>, n: u32, run: &mut Running, out: &mut [u8]) -> How
    ensures { left result run.new out.new ≡ resume array_ops n (tree at.entry) run.old.states (arrays_of run.old.memory out.old) }
{
    match at.kind() {
        Kind::Nothing | Kind::Act(_) | Kind::Break => How::Idle,
        Kind::Await(_) => resume_await(at.place, &mut run.states),
        Kind::Emit => resume_emit(at.place, n, run),
        Kind::Every(_) => resume_every(at, run, out),
        Kind::Fin => resume_fin(at.place, &run.states),
        Kind::If => {
            let how = resume_part(at.first(), n, run, out);
            if_goes_on(at.second(), how, n, run, out)
        }
        Kind::Sequence => {
            let how = resume_part(at.first(), n, run, out);
            seq_goes_on(at.second(), how, n, run, out)
        }
        Kind::Loop => {
            let how = resume(at.first(), n, run, out);
            loop_goes_on(at.first(), how, n, run, out)
        }
        Kind::Par(par) => {
            let fork = Fork { at, par };
            let how = resume(fork.left(), n, run, out);
            fork_goes_on(fork, how, n, run, out)
        }
    }
}

// The left of an if or a sequence: an idle one without children takes no walk.
#[cycle(resume)]
fn resume_part(at: Construct<'_>, n: u32, run: &mut Running, out: &mut [u8]) -> How
    ensures { left result run.new out.new ≡ resume array_ops n (tree at.entry) run.old.states (arrays_of run.old.memory out.old) }
{
    if at.kind().children() == 0 && run.states[at.place] == Running::IDLE {
        return How::Idle;
    }
    resume(at, n, run, out)
}

// After the left of an if.
#[cycle(resume)]
pub fn if_goes_on(right: Construct<'_>, how: How, n: u32, run: &mut Running, out: &mut [u8]) -> How
    ensures { left result run.new out.new ≡ resume_if array_ops (how_of how) (left how run.old out.old) (resume array_ops n (tree right.entry)) }
{
    match how {
        How::Idle => resume(right, n, run, out),
        other => other,
    }
}

// After the left of a sequence.
#[cycle(resume)]
pub fn seq_goes_on(right: Construct<'_>, how: How, n: u32, run: &mut Running, out: &mut [u8]) -> How
    ensures { left result run.new out.new ≡ resume_seq array_ops (how_of how) (left how run.old out.old) (resume array_ops n (tree right.entry)) (exec array_ops n (tree right.entry)) }
{
    match how {
        How::Idle => resume(right, n, run, out),
        How::Ended => {
            run.memory.tick();
            exec(right, n, run, out)
        }
        How::Broke => {
            run.memory.tick();
            How::Broke
        }
        other => other,
    }
}

// After the body of a loop; one that has ended starts anew.
pub fn loop_goes_on(body: Construct<'_>, how: How, n: u32, run: &mut Running, out: &mut [u8]) -> How
    ensures { left result run.new out.new ≡ resume_loop array_ops (how_of how) (left how run.old out.old) (exec array_ops n (tree body.entry)) }
{
    match how {
        How::Ended => {
            run.memory.tick();
            run.memory.tick(); // the loop starts anew
            let again = exec(body, n, run, out);
            after_body(again, &mut run.memory)
        }
        How::Broke => {
            run.memory.tick();
            How::Ended
        }
        other => other,
    }
}

// After the left of an and or or.
#[cycle(resume)]
pub fn fork_goes_on(fork: Fork<'_>, how: How, n: u32, run: &mut Running, out: &mut [u8]) -> How
    ensures { left result run.new out.new ≡ par_goes_on array_ops n fork.entry.at.place (par_of fork.entry.par) (left_side fork.entry) (right_side fork.entry) (left how run.old out.old) }
{
    if run.states[fork.at.place] != Running::IDLE {
        return resume_held(fork, how, n, run, out);
    }
    let second = fork.right();
    match how {
        How::Idle => resume(second, n, run, out),
        How::Ended => match fork.par {
            // Where nothing lives in the right, it takes no walk.
            Par::And if all_idle(second, &run.states) => how,
            Par::And => {
                let right = resume(second, n, run, out);
                right_alone(right, &mut run.memory)
            }
            Par::Or => {
                if clear(second, run, out) {
                    run.memory.tick();
                }
                How::Ended
            }
        },
        How::Broke => {
            if clear(second, run, out) {
                run.memory.tick();
                run.memory.tick();
            }
            How::Broke
        }
        How::Waiting => {
            let right = resume(second, n, run, out);
            after_right(fork.left(), fork.par, right, run, out)
        }
        How::Ringing(_) => how,
    }
}
