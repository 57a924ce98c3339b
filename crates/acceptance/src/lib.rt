// Document 01's check of a table: stages 1 to 7 and the announced numbers.
#![tactic(auto)]

ghost use Rattle.std.specs.Prelude.{◌≡◌, ◌<◌, ◌^◌, true, IfSome, IfOk, IfErr};
ghost use Rattle.rules.specs.Check as Rules;
ghost use Rattle.table.specs.Places.{Shape};
ghost use Rattle.table.specs.Refusing.{refusal_of};
ghost use Rattle.acceptance.specs.Verdicts.{verdict_of, nodes_verdict, passed_at};

mod counts;
mod ending;
mod range;
mod records;
mod row;
mod visit;
mod walks;

use table::{Construct, Refusal, Stage};

// The most that one reaction can do: internal events, highest level, steps, outputs.
#[derive(Clone, Copy, Debug, PartialEq, Eq)]
pub struct Announced {
    pub emitted: u32,
    pub highest: u32,
    pub steps: u32,
    pub outputs: u32,
}

// A stage passes where no place was found that fails it.
fn passed(stage: Stage, found: Option<usize>) -> Result<(), Refusal>
    requires { IfSome found (λ place. place < 2 ^ 32) }
    ensures { result ≡ passed_at stage found }
{
    match found {
        Some(place) => Err(Refusal::at(stage, place)),
        None => Ok(()),
    }
}

// Stages 2 and 3, of a table that passes stage 1.
fn check_records(table: &[u8]) -> Result<(), Refusal>
    requires { Rules.good_length table.now ≡ true }
    ensures refused { IfErr result (λ r. Rules.check table.now ≡ Rules.refused (refusal_of r)) }
    ensures passed { IfOk result (λ u. Rules.check table.now ≡ nodes_verdict table.now) }
    ensures shape { IfOk result (λ u. Shape table.now) }
{
    // One look at each record accepts; a stage at a time finds what is refused.
    if records::spans_table(table) && walks::first_record(table, |record| record.fits()).is_none() {
        return Ok(());
    }
    let shape = walks::first_record(table, |record| record.shape_right());
    passed(Stage::Shape, shape)?;
    let ranges = walks::first_record(table, |record| record.fits());
    passed(Stage::Ranges, ranges)
}

// Stages 4 to 7, of a table that passes 1 to 3.
fn check_nodes(program: Construct<'_>) -> Result<Announced, Refusal>
    requires { program.place ≡ 0 }
    ensures { verdict_of result ≡ nodes_verdict program.entry.table.now }
{
    if let Some(tally) = counts::tally_of_program(program) {
        return Ok(tally.announced(records::records_of(program.table) as u16));
    }
    let loose = walks::first_of_program(program, |visit| visit.loose_break());
    passed(Stage::LooseBreak, loose)?;
    let unfit = walks::first_of_program(program, |visit| visit.not_plain());
    passed(Stage::NotPlain, unfit)?;
    let deep = walks::first_of_program(program, |visit| visit.deep_loop());
    passed(Stage::DeepLoop, deep)?;
    let endless = walks::first_of_program(program, |visit| visit.endless_loop());
    passed(Stage::EndlessLoop, endless)?;
    // Some construct fails, so that control never comes here.
    unreachable!()
}

pub fn check(table: &[u8]) -> Result<Announced, Refusal>
    ensures { verdict_of result ≡ Rules.check table.now }
{
    if !records::good_length(table) {
        return Err(Refusal::at(Stage::Length, 0));
    }
    check_records(table)?;
    check_nodes(Construct { table, place: 0 })
}
