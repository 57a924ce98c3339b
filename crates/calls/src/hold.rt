// The states and variables of a running program: loaded from what was lent, and stored again.
ghost use Rattle.std.specs.Prelude.{◌≡◌, ◌≤◌, length, replicate, take};
ghost use Rattle.rules.specs.Limits.{most_records, variables};
ghost use Rattle.rules.specs.Marks.{all_zero};
ghost use Rattle.calls.specs.Holding.{Bytes, Resting, Stored};

use crate::Done;
use rules::Limits;
use walks::Running;

// A program at rest, where nothing ran yet: its states are the marks, and idle behind them. (In place: what a function hands out is copied.)
pub fn load(run: &mut Running, marks: &[u8], vars: &[i32])
    requires idle { run.old.states ≡ replicate most_records 0 }
    requires no_steps { run.old.memory.steps ≡ 0 }
    requires no_outputs { run.old.memory.outputs ≡ 0 }
    requires marks_len_bound { length marks.now ≤ most_records }
    requires vars_len { length vars.now ≡ variables }
    ensures { Resting marks.now vars.now run.new }
{
    for (place, mark) in marks.iter().enumerate() {
        run.states[place] = u32::from(*mark);
    }
    run.memory.vars.copy_from_slice(vars);
}

// The states at rest are the marks.
fn store_marks(states: &[u32; Limits::RECORDS], marks: &mut [u8])
    requires marks_len_bound { length marks.old ≤ most_records }
    requires bytes { Bytes (length marks.old) states.now }
    ensures { marks.new ≡ take (length marks.old) states.now }
{
    for (place, mark) in marks.iter_mut().enumerate() {
        *mark = states[place] as u8;
    }
}

// Finished where no mark is set.
fn finished(marks: &[u8]) -> bool
    ensures { result ≡ all_zero marks.now }
{
    marks.iter().all(|mark| *mark == 0)
}

// What ran is stored, and its counts are the answer.
pub fn finish(emitted: u64, highest: u32, run: &Running, marks: &mut [u8], vars: &mut [i32]) -> Done
    requires marks_len_bound { length marks.old ≤ most_records }
    requires bytes { Bytes (length marks.old) run.now.states }
    requires vars_len { length vars.old ≡ variables }
    ensures { Stored emitted highest run.now marks.old result marks.new vars.new }
{
    store_marks(&run.states, marks);
    vars.copy_from_slice(&run.memory.vars);
    Done {
        finished: finished(marks),
        highest,
        steps: run.memory.steps,
        emitted,
        outputs: run.memory.outputs,
    }
}
