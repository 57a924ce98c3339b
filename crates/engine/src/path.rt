// The way down from the root to a part, as the places of the constructs that hold it: an array with their number beside it, as the project has no heap.
ghost use Rattle.std.specs.Prelude.{◌≡◌, ◌+◌, ◌≤◌, ◌<◌, ℕ, get_or};
ghost use Rattle.engine.specs.Parts.{Along};

use rules::Limits;
use table::Construct;

#[derive(Drop)]
pub struct Path<'a> {
    table: &'a [u8],
    places: [u16; Limits::RECORDS],
    steps: usize,
    ghost along: { Along table.now places steps },
    ghost low: { steps ≤ get_or places steps 0 },
}

impl<'a> Path<'a> {
    // No step yet, from this construct on.
    #[inline(always)]
    pub fn new(top: Construct<'a>) -> Path<'a>
        ensures table { result.table.now ≡ top.entry.table.now }
        ensures steps { result.steps ≡ 0 }
        ensures top { get_or result.places 0 0 ≡ top.entry.place }
    {
        let mut places = [0; Limits::RECORDS];
        // A place is below 256: a conversion that may fail would be no plainer.
        places[0] = top.place as u16;
        Path {
            table: top.table,
            places,
            steps: 0,
        }
    }

    // One step more, down to a part, whose place is below 256 too.
    pub fn push(&mut self, part: Construct<'a>)
        requires table { part.table.now ≡ self.old.table.now }
        requires below { get_or self.old.places self.old.steps 0 < part.place }
        ensures table { self.new.table.now ≡ self.old.table.now }
        ensures steps { self.new.steps ≡ self.old.steps + 1 }
        ensures end { get_or self.new.places self.new.steps 0 ≡ part.entry.place }
        ensures kept { (k : ℕ) → k ≤ self.old.steps → get_or self.new.places k 0 ≡ get_or self.old.places k 0 }
    {
        self.steps += 1;
        self.places[self.steps] = part.place as u16;
    }

    pub fn steps(&self) -> usize
        ensures { result ≡ self.now.steps }
    {
        self.steps
    }

    // The construct so many steps down.
    pub fn at(&self, step: usize) -> Construct<'a>
        requires { step ≤ self.now.steps }
        ensures table { result.table.now ≡ self.now.table.now }
        ensures place { result.place ≡ get_or self.now.places step 0 }
    {
        Construct {
            table: self.table,
            place: usize::from(self.places[step]),
        }
    }

    // The part that it leads to.
    pub fn end(&self) -> Construct<'a>
        ensures table { result.table.now ≡ self.now.table.now }
        ensures place { result.place ≡ get_or self.now.places self.now.steps 0 }
    {
        self.at(self.steps)
    }
}
