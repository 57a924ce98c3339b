// The lines of what the calls answer.
ghost use Rattle.std.specs.Prelude.{◌≡◌};
ghost use Rattle.table.specs.Refusing.{refusal_of};
ghost use Rattle.calls.specs.Answers.{sent_of, answer_of};
ghost use Rattle.lines.specs.Lines.{call_line, refusal_line};
ghost use Rattle.lines.specs.Texts.{text_of_call, text_of_refusal};

use calls::Done;
use lines::{CallLine, LINE_BYTES, OutLine, RefusalLine};
use std::io;
use table::Refusal;

// (No `From`: the line is of crate lines, and a call's has three parts.)
pub fn of_call(event: u32, value: i32, done: Done) -> CallLine
    ensures { text_of_call result ≡ call_line (sent_of event value) (answer_of done) }
{
    CallLine {
        event,
        value,
        steps: done.steps,
        emitted: done.emitted,
        highest: done.highest,
        outputs: done.outputs,
        finished: done.finished,
    }
}

pub fn of_refusal(refusal: Refusal) -> RefusalLine
    ensures { text_of_refusal result ≡ refusal_line (refusal_of refusal) }
{
    RefusalLine {
        number: refusal.stage.number(),
        place: refusal.place,
    }
}

// Each line stands whole in a buffer before it is written: to fill it can't fail, only the write can.

pub fn print_call(rt: &impl Print, line: CallLine) -> io::Result<()> {
    let mut buffer = [0; LINE_BYTES];
    let length = line.fill(&mut buffer);
    rt.write_all(&buffer[..length])
}

pub fn print_output(rt: &impl Print, line: OutLine) -> io::Result<()> {
    let mut buffer = [0; LINE_BYTES];
    let length = line.fill(&mut buffer);
    rt.write_all(&buffer[..length])
}

pub fn print_refusal(rt: &impl Print, line: RefusalLine) -> io::Result<()> {
    let mut buffer = [0; LINE_BYTES];
    let length = line.fill(&mut buffer);
    rt.write_all(&buffer[..length])
}
