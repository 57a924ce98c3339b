// A construct: a place of a table whose shape is right, with at most 256 records, and what stands there.
ghost use Rattle.std.specs.Prelude.{◌≡◌, ◌+◌, ◌<◌, ◌≤◌};
ghost use Rattle.rules.specs.Table.{name_at, span_at, number_at, kind_at, second_at};
ghost use Rattle.table.specs.Kinds.{children_of};
ghost use Rattle.table.specs.Named.{Stands};
ghost use Rattle.table.specs.Places.{Spot};

use crate::kind::Kind;
use crate::record;

#[derive(Clone, Copy)]
pub struct Construct<'a> {
    pub table: &'a [u8],
    pub place: usize,
    pub ghost stands: { Spot table.now place },
}

impl<'a> Construct<'a> {
    // What its record is, and so which tree stands here.
    #[tactic(auto, using(crate::proofs::Spots::stands_named), unfolding(crate::specs::Kinds::children_of))]
    pub fn kind(self) -> Kind
        ensures { Stands self.entry.table.now self.entry.place result }
    {
        match record::read_kind(self.table, self.place) {
            Ok(kind) => kind,
            Err(_) => unreachable!(),
        }
    }

    // Of a variable, an event or an output.
    pub fn name(self) -> usize
        ensures name { result ≡ name_at self.entry.table.now self.entry.place }
        ensures byte { result < 256 }
    {
        record::name_at(self.table, self.place)
    }

    pub fn number(self) -> i32
        ensures { result ≡ number_at self.entry.table.now self.entry.place }
    {
        record::number_at(self.table, self.place)
    }

    // How many records it takes, its own and those of its children.
    pub fn span(self) -> usize
        ensures { result ≡ span_at self.entry.table.now self.entry.place }
    {
        record::span_at(self.table, self.place)
    }

    // Its first child, whose span is less.
    #[tactic(auto, using(crate::proofs::Spots::spot_first, crate::proofs::Spots::first_falls))]
    pub fn first(self) -> Construct<'a>
        requires { 1 ≤ children_of (kind_at self.table.now self.place) }
        ensures table { result.table.now ≡ self.entry.table.now }
        ensures place { result.place ≡ self.entry.place + 1 }
        ensures smaller { span_at result.table.now result.place < span_at self.entry.table.now self.entry.place }
    {
        Construct {
            table: self.table,
            place: self.place + 1,
        }
    }

    // Its second child, whose span is less too.
    #[tactic(auto, using(crate::proofs::Spots::first_inside, crate::proofs::Spots::spot_second, crate::proofs::Spots::second_falls))]
    pub fn second(self) -> Construct<'a>
        requires { 2 ≤ children_of (kind_at self.table.now self.place) }
        ensures table { result.table.now ≡ self.entry.table.now }
        ensures place { result.place ≡ second_at self.entry.table.now self.entry.place }
        ensures smaller { span_at result.table.now result.place < span_at self.entry.table.now self.entry.place }
    {
        Construct {
            table: self.table,
            place: record::second_at(self.table, self.place),
        }
    }
}
