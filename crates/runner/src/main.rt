// The runner of document 01: reads `program.rec` and `events.rec` in the current folder, starts the program, hands it the
// events one by one, and prints what it does.
#![tactic(auto)]

mod file;
mod line;
mod run;
mod tested;

use lines::Entry;
use rules::Limits;
use run::{Program, Run};
use std::io;
use table::Refusal;

// Why a run ends before its last event.
#[derive(Drop)]
enum Ended {
    Refused(Refusal),
    Unwritten(io::Error),
}

impl From<Refusal> for Ended {
    fn from(refusal: Refusal) -> Self {
        Ended::Refused(refusal)
    }
}

impl From<io::Error> for Ended {
    fn from(error: io::Error) -> Self {
        Ended::Unwritten(error)
    }
}

// The lines of the run. Table, room and events are tested before the first of them.
fn print_run(rt: &impl Print, table: &[u8], events: &[u8]) -> Result<(), Ended> {
    tested::verdict(table, events)?;
    let mut run = Run::of_program(Program { table });
    let done = run.start()?;
    run.report(rt, 0, 0, done)?;
    let (records, _) = events.as_chunks::<{ Limits::RECORD_BYTES }>();
    for record in records {
        let sent = Entry::from(*record);
        let event = u32::from(sent.name);
        let done = run.react(event, sent.value)?;
        run.report(rt, event, sent.value, done)?;
    }
    Ok(())
}

// A refusal is the last line.
fn main(rt: HostRuntime) -> io::Result<()> {
    let mut table = [0; Limits::TABLE_BYTES + 1];
    let table = file::read(&rt, b"program.rec", &mut table);
    let mut events = [0; Limits::LIST_BYTES + 1];
    let events = file::read(&rt, b"events.rec", &mut events);
    match print_run(&rt, table, events) {
        Ok(()) => Ok(()),
        Err(Ended::Refused(refusal)) => line::print_refusal(&rt, line::of_refusal(refusal)),
        Err(Ended::Unwritten(error)) => Err(error),
    }
}
