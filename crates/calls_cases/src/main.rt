// Document 01's cases 1 to 12, run through the calls. A line for the start and for each event: steps, emitted, highest level,
// outputs, `waiting` or `finished`; then name and value of the first output, and the marks.
#![tactic(auto)]

mod cases;
mod lines;

use crate::cases::{CASES, Case, WAIT_AND_OUTPUT};
use crate::lines::{Answered, FirstOutput, Marks, Numbers, ending};
use rules::Limits;
use std::io;

// The records of the longest program.
const MOST_RECORDS: usize = 9;

fn run(rt: &impl Print, case: &Case) -> io::Result<()> {
    let records = (case.table.len() / Limits::RECORD_BYTES).min(MOST_RECORDS);
    let mut all_marks = [0u8; MOST_RECORDS];
    let marks = &mut all_marks[..records];
    let mut vars = [0i32; Limits::VARIABLES];
    let mut out = [0u8; 64];
    let answer = calls::start(case.table, marks, &mut vars, &mut out);
    println!(rt;
        "{}:{}{}, marks{}",
        case.name,
        Answered(answer),
        FirstOutput(answer, &out),
        Marks(marks),
    )?;
    for sent in case.events {
        let value = sent.value.unwrap_or(0);
        let answer = calls::react(case.table, marks, &mut vars, sent.event, value, &mut out);
        println!(rt;
            "{}, {}:{}{}, marks{}",
            case.name,
            sent,
            Answered(answer),
            FirstOutput(answer, &out),
            Marks(marks),
        )?;
    }
    if case.shows_variable {
        println!(rt; "variable 1 {}", vars[1])?;
    }
    Ok(())
}

// Three events on the program of case 5, with room for three outputs. Two are announced for each event, so the third has no room.
fn list(rt: &impl Print) -> io::Result<()> {
    let events = b"\x01\x00\x00\x00\x0b\x00\x00\x00\
        \x01\x00\x00\x00\x0c\x00\x00\x00\
        \x01\x00\x00\x00\x0d\x00\x00\x00";
    let mut marks = [0, 0, 1, 0];
    let mut vars = [0i32; Limits::VARIABLES];
    let mut out = [0u8; 24];
    match calls::run_list(WAIT_AND_OUTPUT, &mut marks, &mut vars, events, &mut out) {
        Ok(listed) => println!(rt;
            "list: refused {}, taken {} {} {} {} {} {}",
            Numbers(listed.stopped),
            listed.taken,
            listed.done.steps,
            listed.done.outputs,
            out[4],
            out[12],
            ending(listed.done.finished),
        ),
        Err(refusal) => println!(rt; "list: refused {}", Numbers(Some(refusal))),
    }
}

fn main(rt: HostRuntime) -> io::Result<()> {
    for case in &CASES {
        run(&rt, case)?;
    }
    list(&rt)
}
