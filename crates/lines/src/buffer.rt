// The same lines as bytes, at the front of a lent buffer. Each function answers the length of its line; it cannot fail, as no line is longer than the buffer.
ghost use Rattle.std.specs.Prelude.{◌≡◌, [], ◌∷◌, ◌++◌, ◌+◌, ◌<◌, ◌≤◌, length};
ghost use Rattle.rules.specs.Stages.{refusal};
ghost use Rattle.lines.specs.Lines.{digit, decimal, signed_decimal, line, state, call_line, out_line, refusal_line};
ghost use Rattle.lines.specs.Writes.{most_number, most_value, most_state, most_line, Puts, PutsWithin, Line, sent_of, answer_of, output_of};

use crate::lines::state;

// No line is longer.
pub const LINE_BYTES: usize = 128;

// A buffer whose first `length` bytes are written.
#[derive(Drop)]
struct Front<'a> {
    buffer: &'a mut [u8; LINE_BYTES],
    length: usize,
}

fn digit(d: u64) -> u8
    requires { d < 10 }
    ensures { result ≡ digit d }
{
    b'0' + d as u8
}

// Each method puts its bytes behind the first `length`, and changes nothing else; the buffer is still the one that was lent.
impl<'a> Front<'a> {
    fn of(buffer: &'a mut [u8; LINE_BYTES]) -> Front<'a>
        ensures same_buffer { result.buffer.ghost_name ≡ buffer.entry.ghost_name }
        ensures as_it_was { result.buffer.now ≡ buffer.old }
        ensures nothing { result.length ≡ 0 }
    {
        Front { buffer, length: 0 }
    }

    fn byte(&mut self, byte: u8)
        requires { self.old.length < most_line }
        ensures same_buffer { self.new.buffer.ghost_name ≡ self.old.buffer.ghost_name }
        ensures puts { Puts (byte ∷ []) self.old.buffer.now self.old.length self.new.buffer.now self.new.length }
    {
        self.buffer[self.length] = byte;
        self.length += 1;
    }

    fn text(&mut self, text: &[u8])
        requires { self.old.length + length text.now ≤ most_line }
        ensures same_buffer { self.new.buffer.ghost_name ≡ self.old.buffer.ghost_name }
        ensures puts { Puts text.now self.old.buffer.now self.old.length self.new.buffer.now self.new.length }
    {
        let end = self.length + text.len();
        let buffer = &mut *self.buffer;
        buffer[self.length..end].copy_from_slice(text);
        self.length = end;
    }

    fn decimal(&mut self, n: u64)
        requires { self.old.length + length (decimal n) ≤ most_line }
        ensures same_buffer { self.new.buffer.ghost_name ≡ self.old.buffer.ghost_name }
        ensures puts { Puts (decimal n) self.old.buffer.now self.old.length self.new.buffer.now self.new.length }
    {
        if n < 10 {
            self.byte(digit(n));
        } else {
            self.decimal(n / 10);
            self.byte(digit(n % 10));
        }
    }

    fn signed(&mut self, z: i32)
        requires { self.old.length + length (signed_decimal z) ≤ most_line }
        ensures same_buffer { self.new.buffer.ghost_name ≡ self.old.buffer.ghost_name }
        ensures puts { Puts (signed_decimal z) self.old.buffer.now self.old.length self.new.buffer.now self.new.length }
    {
        let magnitude = u64::from(z.unsigned_abs());
        if z < 0 {
            self.byte(b'-');
            self.decimal(magnitude);
        } else {
            self.decimal(magnitude);
        }
    }

    // A number and what follows it.
    fn number(&mut self, n: u64, after: u8)
        requires { self.old.length + most_number ≤ most_line }
        ensures same_buffer { self.new.buffer.ghost_name ≡ self.old.buffer.ghost_name }
        ensures puts { PutsWithin most_number (decimal n ++ (after ∷ [])) self.old.buffer.now self.old.length self.new.buffer.now self.new.length }
    {
        self.decimal(n);
        self.byte(after);
    }

    // A signed number and what follows it.
    fn value(&mut self, value: i32, after: u8)
        requires { self.old.length + most_value ≤ most_line }
        ensures same_buffer { self.new.buffer.ghost_name ≡ self.old.buffer.ghost_name }
        ensures puts { PutsWithin most_value (signed_decimal value ++ (after ∷ [])) self.old.buffer.now self.old.length self.new.buffer.now self.new.length }
    {
        self.signed(value);
        self.byte(after);
    }

    // `finished` or `waiting`, and the end of the line.
    fn state(&mut self, finished: bool)
        requires { self.old.length + most_state ≤ most_line }
        ensures same_buffer { self.new.buffer.ghost_name ≡ self.old.buffer.ghost_name }
        ensures puts { PutsWithin most_state (line [] (state finished)) self.old.buffer.now self.old.length self.new.buffer.now self.new.length }
    {
        self.text(state(finished).as_bytes());
        self.byte(b'\n');
    }
}

// Event, value, steps, emitted, highest level, outputs, `waiting` or `finished`.
pub fn call_line(
    buffer: &mut [u8; LINE_BYTES],
    event: u32,
    value: i32,
    steps: u64,
    emitted: u64,
    highest: u32,
    outputs: u64,
    finished: bool,
) -> usize
    ensures { Line (call_line (sent_of event value) (answer_of steps emitted highest outputs finished)) buffer.old buffer.new result }
{
    let mut front = Front::of(buffer);
    front.number(u64::from(event), b' ');
    front.value(value, b' ');
    front.number(steps, b' ');
    front.number(emitted, b' ');
    front.number(u64::from(highest), b' ');
    front.number(outputs, b' ');
    front.state(finished);
    front.length
}

// `out`, name, value.
pub fn out_line(buffer: &mut [u8; LINE_BYTES], name: u8, value: i32) -> usize
    ensures { Line (out_line (output_of name value)) buffer.old buffer.new result }
{
    let mut front = Front::of(buffer);
    front.text(b"out ");
    front.number(u64::from(name), b' ');
    front.value(value, b'\n');
    front.length
}

// `refused`, number, place.
pub fn refusal_line(buffer: &mut [u8; LINE_BYTES], number: u32, place: u32) -> usize
    ensures { Line (refusal_line (refusal number place)) buffer.old buffer.new result }
{
    let mut front = Front::of(buffer);
    front.text(b"refused ");
    front.number(u64::from(number), b' ');
    front.number(u64::from(place), b'\n');
    front.length
}
