// Records that wait: an await, an every, an emit that waits for its turn, a fin.
// A state is a number, since theory's `react-on-states` speaks of lists of them; `Running` names these numbers.
ghost use Rattle.std.specs.Prelude.{◌≡◌, ◌+◌, ◌<◌, ◌≤◌};
ghost use Rattle.rules.specs.Table.{kind_at};
ghost use Rattle.theory.specs.State.{resume_await, resume_fin, resume_every};
ghost use Rattle.table.specs.Kinds.{children_of};
ghost use Rattle.table.specs.Places.{tree_of};
ghost use Rattle.memory.specs.Acts.{arrays_of};
ghost use Rattle.walks.specs.Walks.{array_ops, left};
ghost use Rattle.engine.specs.Running.{Rests, Emits};

use rules::Limits;
use table::Construct;
use walks::settle::settle;
use walks::{How, Running};

pub fn resume_await(place: usize, states: &mut [u32; Limits::RECORDS]) -> How
    requires { place < 256 }
    ensures { Rests (resume_await array_ops place states.old) result states.new }
{
    match states[place] {
        Running::IDLE => How::Idle,
        Running::WOKEN => {
            states[place] = Running::IDLE;
            How::Ended
        }
        _ => How::Waiting,
    }
}

pub fn resume_fin(place: usize, states: &[u32; Limits::RECORDS]) -> How
    requires { place < 256 }
    ensures { Rests (resume_fin array_ops place states.now) result states.now }
{
    if states[place] == Running::IDLE {
        How::Idle
    } else {
        How::Waiting
    }
}

pub fn resume_emit(place: usize, n: u32, run: &mut Running) -> How
    requires { place < 256 }
    ensures { Emits n place run.old result run.new }
{
    let state = run.states[place];
    if state == Running::IDLE {
        return How::Idle;
    }
    if state == n {
        run.states[place] = Running::IDLE;
        run.memory.tick();
        return How::Ended;
    }
    How::Waiting
}

// A woken every runs its body and waits again.
pub fn resume_every(every: Construct<'_>, run: &mut Running, out: &mut [u8]) -> How
    requires { 1 ≤ children_of (kind_at every.table.now every.place) }
    ensures { left result run.new out.new ≡ resume_every array_ops (tree_of every.entry.table.now (every.entry.place + 1)) every.entry.place run.old.states (arrays_of run.old.memory out.old) }
{
    match run.states[every.place] {
        Running::IDLE => How::Idle,
        Running::WOKEN => {
            run.states[every.place] = Running::WAITING;
            settle(every.first(), &mut run.memory, out);
            run.memory.tick();
            How::Waiting
        }
        _ => How::Waiting,
    }
}
