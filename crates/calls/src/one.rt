// The start, and one reaction.
ghost use Rattle.rules.specs.Calls.{start_call, react_call};
ghost use Rattle.calls.specs.Answers.{Uncounted, lent, sent_of};

use crate::Done;
use crate::hold::{finish, load};
use crate::stages::{react_stages, start_stages};
use table::{Construct, Refusal};
use walks::{Listeners, Running};

pub fn start(
    table: &[u8],
    marks: &mut [u8],
    vars: &mut [i32],
    out: &mut [u8],
) -> Result<Done, Refusal>
    ensures { Uncounted (start_call table.now (lent marks.old vars.old out.old)) result marks.new vars.new out.new }
{
    let announced = start_stages(table, marks, vars, out)?;
    let program = Construct { table, place: 0 };
    let mut listeners = Listeners::NOBODY;
    listeners.listen(table);
    // A start does not look at the marks, and its event has the value 0.
    let mut run = Running::IDLING;
    load(&mut run, &[], vars);
    run.memory.vars[0] = 0;
    let round = engine::begin(program, announced.steps, &listeners, &mut run, out);
    Ok(finish(round.emitted, round.highest, &run, marks, vars))
}

pub fn react(
    table: &[u8],
    marks: &mut [u8],
    vars: &mut [i32],
    event: u32,
    value: i32,
    out: &mut [u8],
) -> Result<Done, Refusal>
    ensures { Uncounted (react_call table.now (lent marks.old vars.old out.old) (sent_of event value)) result marks.new vars.new out.new }
{
    let announced = react_stages(table, marks, vars, event, out)?;
    let program = Construct { table, place: 0 };
    let mut listeners = Listeners::NOBODY;
    listeners.listen(table);
    let mut run = Running::IDLING;
    load(&mut run, marks, vars);
    run.memory.vars[0] = value;
    let round = engine::react(
        program,
        event as usize,
        announced.steps,
        &listeners,
        &mut run,
        out,
    );
    Ok(finish(round.emitted, round.highest, &run, marks, vars))
}
