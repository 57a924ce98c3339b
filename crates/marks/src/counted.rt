// A construct of which it is known how many records remain, and the same of every construct behind it.
ghost use Rattle.std.specs.Prelude.{◌≡◌, ◌<◌};
ghost use Rattle.marks.specs.Cursors.{tree};
ghost use Rattle.marks.specs.Fitting.{Sound};
ghost use Rattle.marks.specs.Rest.{rest_span, Rests};

use crate::marked::Marked;
use rules::Limits;

#[derive(Clone, Copy)]
pub struct Counted<'a> {
    pub at: Marked<'a>,
    pub rests: &'a [u16; Limits::RECORDS],
    pub ghost sound: { Sound at.table.now },
    pub ghost known: { Rests at.table.now at.marks.now at.place rests.now },
}

impl<'a> Counted<'a> {
    pub fn of(at: Marked<'a>, rests: &'a [u16; Limits::RECORDS]) -> Counted<'a>
        requires sound { Sound at.table.now }
        requires known { Rests at.table.now at.marks.now at.place rests.now }
        ensures { result.at ≡ at.entry }
    {
        Counted { at, rests }
    }

    // How many records remain of it.
    pub fn count(self) -> usize
        ensures records { result ≡ rest_span self.entry.at.marks.now (tree self.entry.at) }
        ensures two_bytes { result < 65536 }
    {
        usize::from(self.rests[self.at.place])
    }
}
