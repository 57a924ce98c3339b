// What a call tests before it runs: stages 1 to 11, and those of a list.
ghost use Rattle.std.specs.Prelude.{◌≡◌, ◌++◌, ◌+◌, ◌<◌, ◌≤◌, ◌/◌, leb, length};
ghost use Rattle.rules.specs.Stages.{within};
ghost use Rattle.rules.specs.Limits.{record_bytes, most_name};
ghost use Rattle.rules.specs.Check.{table_stages};
ghost use Rattle.rules.specs.Marks.{marks_stages};
ghost use Rattle.rules.specs.Lists.{event_right, list_fails};
ghost use Rattle.acceptance.specs.Verdicts.{verdict_of};
ghost use Rattle.table.specs.Found.{first_of, First};
ghost use Rattle.calls.specs.Stages.{judged, start_stages, standing_stages, react_stages, run_stages, Low, Tested};

use acceptance::Announced;
use rules::Limits;
use table::{Refusal, Stage};

// Room for so many outputs behind those made.
pub fn has_room(made: u64, outputs: u32, out: &[u8]) -> bool
    requires { made ≤ length out.now / record_bytes }
    ensures { result ≡ leb (made + outputs) (length out.now / record_bytes) }
{
    made + u64::from(outputs) <= (out.len() / Limits::RECORD_BYTES) as u64
}

fn is_event(event: u32) -> bool
    ensures { result ≡ within 1 most_name event }
{
    (1..=Limits::NAME).contains(&(event as usize))
}

// A test of the whole: what fails it is refused at place 0.
fn test(stage: Stage, passes: bool) -> Result<(), Refusal>
    ensures { Tested stage passes result }
{
    if passes {
        Ok(())
    } else {
        Err(Refusal::at(stage, 0))
    }
}

pub fn start_stages(
    table: &[u8],
    marks: &[u8],
    vars: &[i32],
    out: &[u8],
) -> Result<Announced, Refusal>
    ensures { verdict_of result ≡ judged table.now (start_stages table.now marks.now vars.now out.now) }
{
    let announced = acceptance::check(table)?;
    test(
        Stage::Marks,
        marks.len() == table.len() / Limits::RECORD_BYTES,
    )?;
    test(Stage::Variables, vars.len() == Limits::VARIABLES)?;
    test(Stage::Room, has_room(0, announced.outputs, out))?;
    Ok(announced)
}

// Stages 1 to 8.
pub fn marks_stages(table: &[u8], marks: &[u8]) -> Result<Announced, Refusal>
    ensures { verdict_of result ≡ judged table.now (table_stages table.now ++ marks_stages table.now marks.now) }
{
    let announced = acceptance::check(table)?;
    if let Some(place) = marks::marks_refused(table, marks) {
        return Err(Refusal::at(Stage::Marks, place));
    }
    Ok(announced)
}

// Stages 1 to 9 of a reaction or a list.
fn standing_stages(table: &[u8], marks: &[u8], vars: &[i32]) -> Result<Announced, Refusal>
    ensures { verdict_of result ≡ judged table.now (standing_stages table.now marks.now vars.now) }
{
    let announced = marks_stages(table, marks)?;
    test(Stage::Variables, vars.len() == Limits::VARIABLES)?;
    Ok(announced)
}

pub fn react_stages(
    table: &[u8],
    marks: &[u8],
    vars: &[i32],
    event: u32,
    out: &[u8],
) -> Result<Announced, Refusal>
    ensures { verdict_of result ≡ judged table.now (react_stages table.now marks.now vars.now event out.now) }
{
    let announced = standing_stages(table, marks, vars)?;
    test(Stage::Event, is_event(event))?;
    test(Stage::Room, has_room(0, announced.outputs, out))?;
    Ok(announced)
}

// Event, three zeros.
fn event_right(record: &[u8; Limits::RECORD_BYTES]) -> bool
    ensures { result ≡ event_right record.now 0 }
{
    matches!(record, [event, 0, 0, 0, ..] if is_event(u32::from(*event)))
}

// The first event that is not right.
fn first_wrong(events: &[u8]) -> Option<usize>
    ensures { First (event_right events.now) (length events.now / record_bytes) result }
{
    let (records, _) = events.as_chunks::<{ Limits::RECORD_BYTES }>();
    records.iter().position(|record| !event_right(record))
}

// The first bad record of a list, a broken last one included; 8192 for a list too long.
pub fn first_bad(events: &[u8]) -> Option<usize>
    ensures first { result ≡ first_of (list_fails events.now) }
    ensures low { Low result }
{
    if events.len() > Limits::LIST_BYTES {
        return Some(Limits::LIST_TOO_LONG);
    }
    if let Some(wrong) = first_wrong(events) {
        return Some(wrong);
    }
    if events.len() % Limits::RECORD_BYTES != 0 {
        return Some(events.len() / Limits::RECORD_BYTES);
    }
    None
}

pub fn run_stages(
    table: &[u8],
    marks: &[u8],
    vars: &[i32],
    events: &[u8],
) -> Result<Announced, Refusal>
    ensures { verdict_of result ≡ judged table.now (run_stages table.now marks.now vars.now events.now) }
{
    let announced = standing_stages(table, marks, vars)?;
    if let Some(place) = first_bad(events) {
        return Err(Refusal::at(Stage::Event, place));
    }
    Ok(announced)
}
