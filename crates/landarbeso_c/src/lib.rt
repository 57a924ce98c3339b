// The C functions: each is the call of landarbeso with the same name and the same clauses, under C's calling convention.
#![tactic(auto)]

ghost use Rattle.std.specs.Prelude.{◌≡◌};
ghost use Rattle.rules.specs.Check as Rules;
ghost use Rattle.rules.specs.Calls.{start_call, react_call};
ghost use Rattle.rules.specs.Lists.{list_call};
ghost use Rattle.rules.specs.Query.{query_call};
ghost use Rattle.rules.specs.Remaining.{remaining_call};
ghost use Rattle.totals.specs.Sum.{totals_of};
ghost use Rattle.calls.specs.Answers.{lent, lent_of, sent_of};
ghost use Rattle.landarbeso.specs.Answers.{Uncounted};
ghost use Rattle.landarbeso.specs.Numbers.{numbers_of, queried_of, Remains};
ghost use Rattle.landarbeso.specs.Counted.{Meant};

use landarbeso::{Answer, CheckedNumbers, Queried, Written};
use totals::Totals;

#[unsafe(no_mangle)]
pub extern "C" fn landarbeso_check(table: &[u8]) -> CheckedNumbers
    ensures { result ≡ numbers_of (Rules.check table.now) }
{
    landarbeso::landarbeso_check(table)
}

#[unsafe(no_mangle)]
pub extern "C" fn landarbeso_start(
    table: &[u8],
    marks: &mut [u8],
    vars: &mut [i32],
    out: &mut [u8],
) -> Answer
    ensures { Uncounted (start_call table.now (lent marks.old vars.old out.old)) result marks.new vars.new out.new }
{
    landarbeso::landarbeso_start(table, marks, vars, out)
}

#[unsafe(no_mangle)]
pub extern "C" fn landarbeso_react(
    table: &[u8],
    marks: &mut [u8],
    vars: &mut [i32],
    event: u32,
    value: i32,
    out: &mut [u8],
    totals: &mut Totals,
) -> Answer
    ensures { Meant (react_call table.now (lent_of marks.old vars.old out.old (totals_of totals.old)) (sent_of event value)) result marks.new vars.new out.new totals.new }
{
    landarbeso::landarbeso_react(table, marks, vars, event, value, out, totals)
}

#[unsafe(no_mangle)]
pub extern "C" fn landarbeso_run_list(
    table: &[u8],
    marks: &mut [u8],
    vars: &mut [i32],
    events: &[u8],
    out: &mut [u8],
    totals: &mut Totals,
) -> Answer
    ensures { Meant (list_call table.now (lent_of marks.old vars.old out.old (totals_of totals.old)) events.now) result marks.new vars.new out.new totals.new }
{
    landarbeso::landarbeso_run_list(table, marks, vars, events, out, totals)
}

#[unsafe(no_mangle)]
pub extern "C" fn landarbeso_query(table: &[u8], marks: &[u8]) -> Queried
    ensures { result ≡ queried_of (query_call table.now marks.now) }
{
    landarbeso::landarbeso_query(table, marks)
}

#[unsafe(no_mangle)]
pub extern "C" fn landarbeso_remaining(table: &[u8], marks: &[u8], out: &mut [u8]) -> Written
    ensures { Remains (remaining_call table.now marks.now out.old) result out.new }
{
    landarbeso::landarbeso_remaining(table, marks, out)
}
