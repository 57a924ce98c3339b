// A program that runs: its table, what it keeps from call to call, and the outputs of the last call.
ghost use Rattle.std.specs.Prelude.{◌≡◌, ◌≤◌};
ghost use Rattle.rules.specs.Limits.{most_records};
ghost use Rattle.rules.specs.Table.{records_of};

use crate::line;
use calls::Done;
use lines::{Entry, OutLine};
use rules::Limits;
use std::io;
use table::Refusal;

const ROOM_BYTES: usize = Limits::RUNNER_OUTPUTS * Limits::RECORD_BYTES;

// A table that a run may begin with: it has at most 256 records.
#[derive(Clone, Copy)]
pub struct Program<'a> {
    pub table: &'a [u8],
    pub ghost small: { records_of table.now ≤ most_records },
}

impl Program<'_> {
    fn records(self) -> usize
        ensures records { result ≡ records_of self.entry.table.now }
        ensures most { result ≤ most_records }
    {
        self.table.len() / Limits::RECORD_BYTES
    }
}

#[derive(Drop)]
pub struct Run<'a> {
    program: Program<'a>,
    marks: [u8; Limits::RECORDS],
    vars: [i32; Limits::VARIABLES],
    room: [u8; ROOM_BYTES],
}

impl<'a> Run<'a> {
    ghost use Rattle.rules.specs.Calls.{start_call, react_call};
    ghost use Rattle.calls.specs.Answers.{sent_of};
    ghost use Rattle.lines.specs.Printed.{runner_lends};
    ghost use Rattle.runner.specs.Lends.{lends, Called};

    // All marks and variables are 0, and the room has space for 8,192 outputs.
    pub fn of_program(program: Program<'a>) -> Run<'a>
        ensures { lends result ≡ runner_lends program.entry.table.now }
    {
        Run {
            program,
            marks: [0; Limits::RECORDS],
            vars: [0; Limits::VARIABLES],
            room: [0; ROOM_BYTES],
        }
    }

    // One mark for each record.
    pub fn start(&mut self) -> Result<Done, Refusal>
        ensures { Called (start_call self.old.program.table.now (lends self.old)) result self.new }
    {
        let Run {
            program,
            marks,
            vars,
            room,
        } = self;
        let (marks, _) = marks.split_at_mut(program.records());
        calls::start(program.table, marks, vars, room)
    }

    // The room of earlier outputs is free again.
    pub fn react(&mut self, event: u32, value: i32) -> Result<Done, Refusal>
        ensures { Called (react_call self.old.program.table.now (lends self.old) (sent_of event value)) result self.new }
    {
        let Run {
            program,
            marks,
            vars,
            room,
        } = self;
        let (marks, _) = marks.split_at_mut(program.records());
        calls::react(program.table, marks, vars, event, value, room)
    }

    // The line of a call and those of its outputs.
    pub fn report(&self, rt: &impl Print, event: u32, value: i32, done: Done) -> io::Result<()> {
        line::print_call(rt, line::of_call(event, value, done))?;
        let (records, _) = self.room.as_chunks::<{ Limits::RECORD_BYTES }>();
        for record in records.iter().take(done.outputs as usize) {
            line::print_output(rt, OutLine(Entry::from(*record)))?;
        }
        Ok(())
    }
}
