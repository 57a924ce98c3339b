// The parts of a line.
use calls::Done;
use std::fmt;
use table::Refusal;

pub fn ending(finished: bool) -> &'static str {
    if finished { "finished" } else { "waiting" }
}

// Number and place of a refusal, 0 and 0 for none.
#[derive(Clone, Copy)]
pub struct Numbers(pub Option<Refusal>);

impl fmt::Display for Numbers {
    fn fmt<W: fmt::Write>(&self, f: &mut fmt::Formatter<W>) -> fmt::Result {
        match self.0 {
            Some(refusal) => write!(f, "{} {}", refusal.stage.number(), refusal.place),
            None => write!(f, "0 0"),
        }
    }
}

// The counts of a call, or its refusal.
#[derive(Clone, Copy)]
pub struct Answered(pub Result<Done, Refusal>);

impl fmt::Display for Answered {
    fn fmt<W: fmt::Write>(&self, f: &mut fmt::Formatter<W>) -> fmt::Result {
        match self.0 {
            Ok(done) => write!(
                f,
                " {} {} {} {} {}",
                done.steps,
                done.emitted,
                done.highest,
                done.outputs,
                ending(done.finished),
            ),
            Err(refusal) => write!(f, " refused {}", Numbers(Some(refusal))),
        }
    }
}

// The first output, where one was written: its name, and the lowest byte of its value.
#[derive(Clone, Copy)]
pub struct FirstOutput<'a>(pub Result<Done, Refusal>, pub &'a [u8; 64]);

impl fmt::Display for FirstOutput<'_> {
    fn fmt<W: fmt::Write>(&self, f: &mut fmt::Formatter<W>) -> fmt::Result {
        match self.0 {
            Ok(done) if done.outputs > 0 => write!(f, ", out {} {}", self.1[0], self.1[4]),
            _ => Ok(()),
        }
    }
}

// A 1 for each mark that is set, else a 0.
#[derive(Clone, Copy)]
pub struct Marks<'a>(pub &'a [u8]);

impl fmt::Display for Marks<'_> {
    fn fmt<W: fmt::Write>(&self, f: &mut fmt::Formatter<W>) -> fmt::Result {
        for mark in self.0 {
            let set = u8::from(*mark != 0);
            write!(f, " {set}")?;
        }
        Ok(())
    }
}
