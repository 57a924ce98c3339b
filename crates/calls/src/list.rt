// A list of events.
ghost use Rattle.rules.specs.Lists.{list_call};
ghost use Rattle.calls.specs.Answers.{Ran, lent};

use crate::Listed;
use crate::hold::{finish, load};
use crate::stages::{has_room, run_stages};
use engine::react;
use rules::Limits;
use table::{Construct, Entry, Refusal, Stage};
use walks::{Listeners, Running};

// Each event is taken while the room has the announced outputs behind those made.
pub fn run_list(
    table: &[u8],
    marks: &mut [u8],
    vars: &mut [i32],
    events: &[u8],
    out: &mut [u8],
) -> Result<Listed, Refusal>
    ensures { Ran (list_call table.now (lent marks.old vars.old out.old) events.now) result marks.new vars.new out.new }
{
    let announced = run_stages(table, marks, vars, events)?;
    let program = Construct { table, place: 0 };
    let mut listeners = Listeners::NOBODY;
    listeners.listen(table);
    let mut run = Running::IDLING;
    load(&mut run, marks, vars);
    let mut emitted: u64 = 0;
    let mut highest: u32 = 0;
    let mut taken: u64 = 0;
    let mut stopped = None;
    let (records, _) = events.as_chunks::<{ Limits::RECORD_BYTES }>();
    for (place, record) in records.iter().enumerate() {
        if !has_room(run.memory.outputs, announced.outputs, out) {
            stopped = Some(Refusal::at(Stage::Stopped, place));
            break;
        }
        let sent = Entry::from(*record);
        run.memory.vars[0] = sent.value;
        let event = usize::from(sent.name);
        let round = react(program, event, announced.steps, &listeners, &mut run, out);
        emitted += round.emitted;
        highest = highest.max(round.highest);
        taken += 1;
    }
    let done = finish(emitted, highest, &run, marks, vars);
    Ok(Listed {
        done,
        taken,
        stopped,
    })
}
