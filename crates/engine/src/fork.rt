// An and or or.
ghost use Rattle.std.specs.Prelude.{◌≡◌, ◌+◌, ◌<◌};
ghost use Rattle.rules.specs.Table.{kind_at, span_at, second_at};
ghost use Rattle.rules.specs.Tree.{by_par};
ghost use Rattle.table.specs.Named.{par_of};

use table::{Construct, Par};

#[derive(Clone, Copy)]
pub struct Fork<'a> {
    pub at: Construct<'a>,
    pub par: Par,
    pub ghost forks: { kind_at at.table.now at.place ≡ by_par (par_of par) 17 },
}

impl<'a> Fork<'a> {
    pub fn left(self) -> Construct<'a>
        ensures table { result.table.now ≡ self.entry.at.table.now }
        ensures place { result.place ≡ self.entry.at.place + 1 }
        ensures smaller { span_at result.table.now result.place < span_at self.entry.at.table.now self.entry.at.place }
    {
        self.at.first()
    }

    pub fn right(self) -> Construct<'a>
        ensures table { result.table.now ≡ self.entry.at.table.now }
        ensures place { result.place ≡ second_at self.entry.at.table.now self.entry.at.place }
        ensures smaller { span_at result.table.now result.place < span_at self.entry.at.table.now self.entry.at.place }
    {
        self.at.second()
    }
}
