// What a name or a number may be.
ghost use Rattle.std.specs.Prelude.{◌≡◌, pos};
ghost use Rattle.rules.specs.Table.{in_range};
ghost use Rattle.acceptance.specs.Records.{range_of};

use rules::Limits;

#[derive(Clone, Copy, Debug, PartialEq, Eq)]
pub enum Range {
    Nought,
    Anything,
    UpTo63,
    OneTo63,
}

impl Range {
    pub fn holds(self, value: usize) -> bool
        ensures { result ≡ in_range (range_of self) (pos value) }
    {
        match self {
            Range::Nought => value == 0,
            Range::Anything => true,
            Range::UpTo63 => value <= Limits::NAME,
            Range::OneTo63 => 1 <= value && value <= Limits::NAME,
        }
    }
}
