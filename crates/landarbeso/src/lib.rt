// The calls of document 01, each for every input. C lends each part by itself, so each is a parameter of its own.
#![tactic(auto)]

ghost use Rattle.std.specs.Prelude.{◌≡◌};
ghost use Rattle.rules.specs.Check as Rules;
ghost use Rattle.rules.specs.Calls.{start_call, react_call};
ghost use Rattle.rules.specs.Lists.{list_call};
ghost use Rattle.rules.specs.Query.{query_call};
ghost use Rattle.rules.specs.Remaining.{remaining_call};
ghost use Rattle.totals.specs.Sum.{totals_of};
ghost use Rattle.calls.specs.Answers.{lent, lent_of, sent_of};
ghost use Rattle.landarbeso.specs.Answers.{flat_done, flat_listed, Uncounted};
ghost use Rattle.landarbeso.specs.Numbers.{flat_asked, flat_written, numbers_of, queried_of, Remains};
ghost use Rattle.landarbeso.specs.Counted.{Meant};

mod answers;
mod numbers;

pub use answers::Answer;
use calls::{Done, Listed};
use marks::Asked;
pub use numbers::{CheckedNumbers, Queried, Written};
use rules::Limits;
use table::{Refusal, Stage};
use totals::Totals;

pub fn landarbeso_check(table: &[u8]) -> CheckedNumbers
    ensures { result ≡ numbers_of (Rules.check table.now) }
{
    acceptance::check(table).into()
}

pub fn landarbeso_start(table: &[u8], marks: &mut [u8], vars: &mut [i32], out: &mut [u8]) -> Answer
    ensures { Uncounted (start_call table.now (lent marks.old vars.old out.old)) result marks.new vars.new out.new }
{
    calls::start(table, marks, vars, out).into()
}

// A reaction that is not refused is counted.
fn react(
    table: &[u8],
    marks: &mut [u8],
    vars: &mut [i32],
    event: u32,
    value: i32,
    out: &mut [u8],
    totals: &mut Totals,
) -> Result<Done, Refusal>
    ensures { Meant (react_call table.now (lent_of marks.old vars.old out.old (totals_of totals.old)) (sent_of event value)) (flat_done result) marks.new vars.new out.new totals.new }
{
    let done = calls::react(table, marks, vars, event, value, out)?;
    totals.count(1, done.steps);
    Ok(done)
}

pub fn landarbeso_react(
    table: &[u8],
    marks: &mut [u8],
    vars: &mut [i32],
    event: u32,
    value: i32,
    out: &mut [u8],
    totals: &mut Totals,
) -> Answer
    ensures { Meant (react_call table.now (lent_of marks.old vars.old out.old (totals_of totals.old)) (sent_of event value)) result marks.new vars.new out.new totals.new }
{
    react(table, marks, vars, event, value, out, totals).into()
}

// Of a list the events that were taken are counted.
fn run_list(
    table: &[u8],
    marks: &mut [u8],
    vars: &mut [i32],
    events: &[u8],
    out: &mut [u8],
    totals: &mut Totals,
) -> Result<Listed, Refusal>
    ensures { Meant (list_call table.now (lent_of marks.old vars.old out.old (totals_of totals.old)) events.now) (flat_listed result) marks.new vars.new out.new totals.new }
{
    let listed = calls::run_list(table, marks, vars, events, out)?;
    totals.count(listed.taken, listed.done.steps);
    Ok(listed)
}

pub fn landarbeso_run_list(
    table: &[u8],
    marks: &mut [u8],
    vars: &mut [i32],
    events: &[u8],
    out: &mut [u8],
    totals: &mut Totals,
) -> Answer
    ensures { Meant (list_call table.now (lent_of marks.old vars.old out.old (totals_of totals.old)) events.now) result marks.new vars.new out.new totals.new }
{
    run_list(table, marks, vars, events, out, totals).into()
}

#[tactic(auto, using(crate::proofs::Verdicts::verdicts))]
fn query(table: &[u8], marks: &[u8]) -> Result<Asked, Refusal>
    ensures { flat_asked result ≡ queried_of (query_call table.now marks.now) }
{
    calls::marks_stages(table, marks)?;
    Ok(marks::ask(table, marks))
}

pub fn landarbeso_query(table: &[u8], marks: &[u8]) -> Queried
    ensures { result ≡ queried_of (query_call table.now marks.now) }
{
    query(table, marks).into()
}

// The remaining program, where there is room for it; the answer counts its records.
#[tactic(auto, using(crate::proofs::Verdicts::verdicts))]
fn remaining(table: &[u8], marks: &[u8], out: &mut [u8]) -> Result<u32, Refusal>
    ensures { Remains (remaining_call table.now marks.now out.old) (flat_written result) out.new }
{
    calls::marks_stages(table, marks)?;
    if out.len() / Limits::RECORD_BYTES < marks::remaining_span(table, marks) {
        return Err(Refusal::at(Stage::Room, 0));
    }
    let records = marks::write_remaining(table, marks, out);
    Ok(records as u32)
}

pub fn landarbeso_remaining(table: &[u8], marks: &[u8], out: &mut [u8]) -> Written
    ensures { Remains (remaining_call table.now marks.now out.old) result out.new }
{
    remaining(table, marks, out).into()
}
