// What a running program keeps beside its states: 64 variables, and how many steps it took and outputs it made.
ghost use Rattle.std.specs.Prelude.{◌≡◌};
ghost use Rattle.std.specs.Int.Signed.{mag};
ghost use Rattle.memory.specs.Arrays.{acts, kind_acts, variable, put_output, make_output};
ghost use Rattle.memory.specs.Acts.{act_of, arrays_of, Ticks, Tests, Sets, counted};

use crate::act::Act;
use crate::number::{bits_of, difference, is_less, quotient, sum};
use rules::Limits;

#[derive(Drop)]
pub struct Memory {
    pub vars: [i32; Limits::VARIABLES],
    pub steps: u64,
    pub outputs: u64,
}

// One more, stopping at the largest value.
fn one_more(count: u64) -> u64
    ensures { result ≡ counted count }
{
    count.saturating_add(1)
}

// The variable that a number names.
fn named(number: i32) -> usize
    ensures { result ≡ mag number }
{
    if number < 0 {
        !number as usize
    } else {
        number as usize
    }
}

// The output after n others: name, three zeros, value, where the room has them.
fn put_output(n: u64, name: usize, value: i32, out: &mut [u8])
    ensures { out.new ≡ put_output out.old n name value }
{
    let room = (out.len() / Limits::RECORD_BYTES) as u64;
    if n < room {
        let i = Limits::RECORD_BYTES * (n as usize);
        let [b0, b1, b2, b3] = bits_of(value).to_le_bytes();
        let record = [(name % 256) as u8, 0, 0, 0, b0, b1, b2, b3];
        out[i..i + Limits::RECORD_BYTES].copy_from_slice(&record);
    }
}

impl Memory {
    // One step more.
    #[tactic(auto, unfolding(crate::specs::Acts::arrays_of, crate::specs::Arrays::arrays, crate::specs::Arrays::tick))]
    pub fn tick(&mut self)
        ensures { Ticks self.old self.new }
    {
        self.steps = one_more(self.steps);
    }

    // Variable v; 0 where there is none.
    fn variable(&self, v: usize) -> i32
        ensures { result ≡ variable self.now.vars v }
    {
        self.vars.get(v).copied().unwrap_or(0)
    }

    // What an if tests.
    #[tactic(auto, using(crate::proofs::Bits::zero_bits), unfolding(crate::specs::Acts::arrays_of, crate::specs::Arrays::arrays, crate::specs::Arrays::is_nonzero))]
    pub fn is_nonzero(&self, v: usize) -> bool
        ensures { Tests result self.now v }
    {
        self.variable(v) != 0
    }

    fn set(&mut self, v: usize, z: i32)
        ensures { Sets self.old v z self.new }
    {
        if v < Limits::VARIABLES {
            self.vars[v] = z;
        }
    }

    #[tactic(auto, unfolding(crate::specs::Acts::arrays_of, crate::specs::Arrays::arrays))]
    fn output(&mut self, name: usize, value: i32, out: &mut [u8])
        ensures { arrays_of self.new out.new ≡ make_output (arrays_of self.old out.old) name value }
    {
        put_output(self.outputs, name, value, out);
        self.outputs = one_more(self.outputs);
    }

    // What a record of this act, name and number does.
    #[tactic(auto, unfolding(crate::specs::Acts::arrays_of, crate::specs::Arrays::arrays, crate::specs::Arrays::acts))]
    pub fn perform(&mut self, act: Act, name: usize, number: i32, out: &mut [u8])
        ensures { arrays_of self.new out.new ≡ acts (act_of act) name number (arrays_of self.old out.old) }
    {
        let old = self.variable(name);
        let other = self.variable(named(number));
        match act {
            Act::Assign => self.set(name, number),
            Act::Increase => self.set(name, sum(old, number)),
            Act::Copy => self.set(name, other),
            Act::Subtract => self.set(name, difference(old, other)),
            Act::Compare => self.set(name, is_less(old, other)),
            Act::Divide => self.set(name, quotient(old, other)),
            Act::Output => self.output(name, other, out),
        }
    }

    // The same by a kind's number, as docs/PROMISES.md has it (code calls `perform`); kinds other than 1 to 7 do nothing.
    #[tactic(auto, unfolding(crate::specs::Arrays::kind_acts))]
    pub fn act(&mut self, kind: u8, name: usize, number: i32, out: &mut [u8])
        ensures { arrays_of self.new out.new ≡ kind_acts kind name number (arrays_of self.old out.old) }
    {
        if let Ok(act) = Act::try_from(kind) {
            self.perform(act, name, number, out);
        }
    }
}
