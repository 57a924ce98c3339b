// The running totals, lent by the caller: reactions and steps, 64 bits each, stopping at the largest value.
#![tactic(auto)]

ghost use Rattle.totals.specs.Sum.{Counted};

#[repr(C)]
#[derive(Clone, Copy, Debug, PartialEq, Eq)]
pub struct Totals {
    pub reactions: u64,
    pub steps: u64,
}

impl Totals {
    pub fn with(self, reactions: u64, steps: u64) -> Totals
        ensures { Counted self reactions steps result }
    {
        Totals {
            reactions: self.reactions.saturating_add(reactions),
            steps: self.steps.saturating_add(steps),
        }
    }

    pub fn count(&mut self, reactions: u64, steps: u64)
        ensures { Counted self.old reactions steps self.new }
    {
        *self = self.with(reactions, steps);
    }
}
