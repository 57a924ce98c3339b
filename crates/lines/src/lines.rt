// The lines of a call, of an output and of a refusal, each with its end of line.
ghost use Rattle.std.specs.Prelude.{◌≡◌, Some};
ghost use Rattle.lines.specs.Lines.{state};
ghost use Rattle.lines.specs.Texts.{text_of_call, text_of_output, text_of_refusal};

use crate::Entry;
use std::fmt;

#[derive(Clone, Copy, Debug, PartialEq, Eq)]
pub struct CallLine {
    pub event: u32,
    pub value: i32,
    pub steps: u64,
    pub emitted: u64,
    pub highest: u32,
    pub outputs: u64,
    pub finished: bool,
}

#[derive(Clone, Copy, Debug, PartialEq, Eq)]
pub struct OutLine(pub Entry);

#[derive(Clone, Copy, Debug, PartialEq, Eq)]
pub struct RefusalLine {
    pub number: u32,
    pub place: u32,
}

pub fn state(finished: bool) -> &'static str
    ensures { result.now ≡ state finished }
{
    if finished { "finished" } else { "waiting" }
}

// Event, value, steps, emitted, highest level, outputs, `waiting` or `finished`.
impl fmt::Display for CallLine {
    ghost output = { λ line. Some (text_of_call line) };

    fn fmt<W: fmt::Write>(&self, f: &mut fmt::Formatter<W>) -> fmt::Result {
        let CallLine {
            event,
            value,
            steps,
            emitted,
            highest,
            outputs,
            finished,
        } = *self;
        let state = state(finished);
        writeln!(
            f,
            "{event} {value} {steps} {emitted} {highest} {outputs} {state}"
        )
    }
}

// `out`, name, value.
impl fmt::Display for OutLine {
    ghost output = { λ line. Some (text_of_output line) };

    fn fmt<W: fmt::Write>(&self, f: &mut fmt::Formatter<W>) -> fmt::Result {
        let OutLine(Entry { name, value }) = *self;
        writeln!(f, "out {name} {value}")
    }
}

// `refused`, number, place.
impl fmt::Display for RefusalLine {
    ghost output = { λ line. Some (text_of_refusal line) };

    fn fmt<W: fmt::Write>(&self, f: &mut fmt::Formatter<W>) -> fmt::Result {
        let RefusalLine { number, place } = *self;
        writeln!(f, "refused {number} {place}")
    }
}
