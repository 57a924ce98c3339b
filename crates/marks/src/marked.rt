// A construct with the marks of its table: a place of a table whose shape is right, and one mark for each record. (Not table's `Construct` with marks
// beside it: that has at most 256 records, and `marks_refused` answers for tables of any length.)
ghost use Rattle.std.specs.Prelude.{◌≡◌, ◌+◌, ◌<◌, ◌≤◌};
ghost use Rattle.rules.specs.Table.{kind_at, name_at, span_at, second_at, records_of};
ghost use Rattle.rules.specs.Marks.{may_mark, marked, mark_right};
ghost use Rattle.table.specs.Kinds.{children_of};
ghost use Rattle.table.specs.Named.{Stands, kind_number};
ghost use Rattle.marks.specs.Fitting.{Spot};

use rules::Limits;
use table::Kind;

// The kinds that wait.
pub fn may_mark(kind: Kind) -> bool
    ensures { result ≡ may_mark (kind_number kind) }
{
    matches!(kind, Kind::Await(_) | Kind::Every(_) | Kind::Fin)
}

#[derive(Clone, Copy)]
pub struct Marked<'a> {
    pub table: &'a [u8],
    pub marks: &'a [u8],
    pub place: usize,
    pub ghost stands: { Spot table.now marks.now place },
}

impl<'a> Marked<'a> {
    // How many records the table has.
    pub fn records(self) -> usize
        ensures { result ≡ records_of self.entry.table.now }
    {
        self.table.len() / Limits::RECORD_BYTES
    }

    // The construct at another place of the same table.
    pub fn at(self, place: usize) -> Marked<'a>
        requires { place < records_of self.table.now }
        ensures table { result.table.now ≡ self.entry.table.now }
        ensures marks { result.marks.now ≡ self.entry.marks.now }
        ensures place { result.place ≡ place }
    {
        Marked {
            table: self.table,
            marks: self.marks,
            place,
        }
    }

    pub fn kind(self) -> Kind
        ensures { Stands self.entry.table.now self.entry.place result }
    {
        match table::read_kind(self.table, self.place) {
            Ok(kind) => kind,
            Err(_) => unreachable!(),
        }
    }

    pub fn name(self) -> usize
        ensures name { result ≡ name_at self.entry.table.now self.entry.place }
        ensures byte { result < 256 }
    {
        table::name_at(self.table, self.place)
    }

    pub fn span(self) -> usize
        ensures span { result ≡ span_at self.entry.table.now self.entry.place }
        ensures two_bytes { result < 65536 }
    {
        table::span_at(self.table, self.place)
    }

    pub fn is_marked(self) -> bool
        ensures { result ≡ marked self.entry.marks.now self.entry.place }
    {
        self.marks[self.place] == 1
    }

    // A mark is 0, or 1 on a kind that waits.
    pub fn is_right(self) -> bool
        ensures { result ≡ mark_right self.entry.table.now self.entry.marks.now self.entry.place }
    {
        match self.marks[self.place] {
            0 => true,
            1 => may_mark(self.kind()),
            _ => false,
        }
    }

    pub fn first(self) -> Marked<'a>
        requires { 1 ≤ children_of (kind_at self.table.now self.place) }
        ensures table { result.table.now ≡ self.entry.table.now }
        ensures marks { result.marks.now ≡ self.entry.marks.now }
        ensures place { result.place ≡ self.entry.place + 1 }
        ensures smaller { span_at result.table.now result.place < span_at self.entry.table.now self.entry.place }
    {
        Marked {
            table: self.table,
            marks: self.marks,
            place: self.place + 1,
        }
    }

    pub fn second(self) -> Marked<'a>
        requires { 2 ≤ children_of (kind_at self.table.now self.place) }
        ensures table { result.table.now ≡ self.entry.table.now }
        ensures marks { result.marks.now ≡ self.entry.marks.now }
        ensures place { result.place ≡ second_at self.entry.table.now self.entry.place }
        ensures smaller { span_at result.table.now result.place < span_at self.entry.table.now self.entry.place }
    {
        Marked {
            table: self.table,
            marks: self.marks,
            place: table::second_at(self.table, self.place),
        }
    }
}
