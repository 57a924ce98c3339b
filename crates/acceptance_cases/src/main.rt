// What the check answers for document 01's cases 13, 9, 10 and 11, and for a table that fails each of stages 2 to 5.
#![tactic(auto)]

mod cases;

use crate::cases::{CASES, Record, long_table, nested_loops};
use acceptance::Announced;
use rules::Limits;
use std::{fmt, io};
use table::Refusal;

// One more than a table may have.
const ROOM: usize = Limits::RECORDS + 1;

// The answer of a check.
#[derive(Clone, Copy)]
struct Answer(Result<Announced, Refusal>);

impl fmt::Display for Answer {
    fn fmt<W: fmt::Write>(&self, f: &mut fmt::Formatter<W>) -> fmt::Result {
        match self.0 {
            Ok(announced) => write!(
                f,
                "accepted {} {} {} {}",
                announced.emitted, announced.highest, announced.steps, announced.outputs,
            ),
            Err(refusal) => write!(f, "refused {} {}", refusal.stage.number(), refusal.place),
        }
    }
}

// The answer for a table of these records, as many of them as there is room for.
fn say(rt: &impl Print, name: &str, records: &[Record]) -> io::Result<()> {
    let mut room = [[0u8; Limits::RECORD_BYTES]; ROOM];
    for (bytes, record) in room.iter_mut().zip(records) {
        *bytes = record.bytes();
    }
    let table = room[..records.len().min(ROOM)].as_flattened();
    println!(rt; "{name}: {}", Answer(acceptance::check(table)))
}

fn main(rt: HostRuntime) -> io::Result<()> {
    let longest: [Record; Limits::RECORDS] = long_table();
    let too_long: [Record; ROOM] = long_table();
    say(&rt, "13: 256 records", &longest)?;
    say(&rt, "13: 257 records", &too_long)?;
    say(&rt, "13: no records", &[])?;
    say(&rt, "13: eight loops", &nested_loops::<9>())?;
    say(&rt, "13: nine loops", &nested_loops::<10>())?;
    for case in &CASES {
        say(&rt, case.name, case.records)?;
    }
    Ok(())
}
