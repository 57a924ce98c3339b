// The line of each type, whole at the front of a lent buffer: the text that its `Display` prints, by functions that cannot fail.
ghost use Rattle.lines.specs.Writes.{Line};
ghost use Rattle.lines.specs.Texts.{text_of_call, text_of_output, text_of_refusal};

use crate::buffer::{LINE_BYTES, call_line, out_line, refusal_line};
use crate::lines::{CallLine, OutLine, RefusalLine};

impl CallLine {
    pub fn fill(self, buffer: &mut [u8; LINE_BYTES]) -> usize
        ensures { Line (text_of_call self) buffer.old buffer.new result }
    {
        call_line(
            buffer,
            self.event,
            self.value,
            self.steps,
            self.emitted,
            self.highest,
            self.outputs,
            self.finished,
        )
    }
}

impl OutLine {
    pub fn fill(self, buffer: &mut [u8; LINE_BYTES]) -> usize
        ensures { Line (text_of_output self) buffer.old buffer.new result }
    {
        out_line(buffer, self.0.name, self.0.value)
    }
}

impl RefusalLine {
    pub fn fill(self, buffer: &mut [u8; LINE_BYTES]) -> usize
        ensures { Line (text_of_refusal self) buffer.old buffer.new result }
    {
        refusal_line(buffer, self.number, self.place)
    }
}
