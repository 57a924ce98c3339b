// Stages 1 to 3: the length, and each record by itself.
ghost use Rattle.std.specs.Prelude.{◌≡◌, ◌<◌, eqb};
ghost use Rattle.rules.specs.Table.{span_at, records_of, span_fits, shape_right};
ghost use Rattle.rules.specs.Check.{good_length};

use crate::range::Range;
use memory::Act;
use rules::Limits;
use table::Kind;

pub fn good_length(table: &[u8]) -> bool
    ensures { result ≡ good_length table.now }
{
    let bytes = table.len();
    bytes != 0 && bytes % Limits::RECORD_BYTES == 0 && bytes <= Limits::TABLE_BYTES
}

// How many records.
pub fn records_of(table: &[u8]) -> usize
    ensures { result ≡ records_of table.now }
{
    table.len() / Limits::RECORD_BYTES
}

// Whether record 0 spans the table.
pub fn spans_table(table: &[u8]) -> bool
    requires { 0 < records_of table.now }
    ensures { result ≡ eqb (span_at table.now 0) (records_of table.now) }
{
    table::span_at(table, 0) == records_of(table)
}

// A record of a table.
#[derive(Clone, Copy)]
pub struct Record<'a> {
    pub table: &'a [u8],
    pub place: usize,
    pub ghost inside: { place < records_of table.now },
}

impl Record<'_> {
    ghost use Rattle.acceptance.specs.Records.{range_of, children_as, row_fits, record_fits};

    // Whether its span is that of so many children and one more.
    #[inline(always)]
    fn spans(self, children: usize) -> bool
        ensures { result ≡ span_fits (children_as children) self.entry.table.now (records_of self.entry.table.now) self.entry.place }
    {
        let span = table::span_at(self.table, self.place);
        if children == 0 {
            return span == 1;
        }
        let records = records_of(self.table);
        if records <= self.place + 1 {
            return false;
        }
        let first = table::span_at(self.table, self.place + 1);
        if children == 1 {
            return span == 1 + first;
        }
        let next = self.place + 1 + first;
        if records <= next {
            return false;
        }
        span == 1 + first + table::span_at(self.table, next)
    }

    // Stage 2.
    pub fn shape_right(self) -> bool
        ensures { result ≡ shape_right self.entry.table.now (records_of self.entry.table.now) self.entry.place }
    {
        let Ok(kind) = table::read_kind(self.table, self.place) else {
            return false;
        };
        self.spans(kind.children()) && (self.place != 0 || spans_table(self.table))
    }

    // Whether its name and its number are in these ranges, and its span is that of so many children and one more.
    #[inline(always)]
    fn row_fits(self, name: Range, number: Range, children: usize) -> bool
        ensures { result ≡ row_fits self.entry.table.now self.entry.place (range_of name) (range_of number) (children_as children) }
    {
        name.holds(table::name_at(self.table, self.place))
            && number.holds(table::bits_at(self.table, self.place) as usize)
            && self.spans(children)
    }

    // Stage 3, and that its span fits: one look at the kind, behind which each row is tests of constants.
    #[inline(always)]
    pub fn fits(self) -> bool
        ensures { result ≡ record_fits self.entry.table.now self.entry.place }
    {
        let Ok(kind) = table::read_kind(self.table, self.place) else {
            return false;
        };
        match kind {
            Kind::Act(Act::Assign | Act::Increase) => {
                self.row_fits(Range::OneTo63, Range::Anything, 0)
            }
            Kind::Act(_) => self.row_fits(Range::OneTo63, Range::UpTo63, 0),
            Kind::Await(_) | Kind::Emit => self.row_fits(Range::OneTo63, Range::Nought, 0),
            Kind::Every(_) => self.row_fits(Range::OneTo63, Range::Nought, 1),
            Kind::If => self.row_fits(Range::UpTo63, Range::Nought, 2),
            Kind::Nothing | Kind::Break => self.row_fits(Range::Nought, Range::Nought, 0),
            Kind::Loop | Kind::Fin => self.row_fits(Range::Nought, Range::Nought, 1),
            Kind::Sequence | Kind::Par(_) => self.row_fits(Range::Nought, Range::Nought, 2),
        }
    }
}
