// Constructs that stand one behind the other, from a place on up to another place, and what stands around each of them.
ghost use Rattle.std.specs.Prelude.{◌≡◌, ◌+◌, ◌≤◌, false};
ghost use Rattle.rules.specs.Limits.{most_records};
ghost use Rattle.rules.specs.Table.{kind_at, span_at, records_of};
ghost use Rattle.table.specs.Named.{children};
ghost use Rattle.acceptance.specs.Rows.{Ends};

use crate::visit::{Around, Visit};
use rules::Limits;
use table::Construct;

#[derive(Clone, Copy)]
pub struct Row<'a> {
    pub table: &'a [u8],
    pub around: Around,
    pub place: usize,
    pub end: usize,
    pub ghost small: { records_of table.now ≤ most_records },
    pub ghost few: { around.loops ≤ place },
}

impl<'a> Row<'a> {
    ghost use Rattle.acceptance.specs.Visits.{around_of, inner};

    // A program alone, with nothing around it.
    pub fn of(program: Construct<'a>) -> Row<'a>
        requires { program.place ≡ 0 }
        ensures table { result.table.now ≡ program.entry.table.now }
        ensures place { result.place ≡ 0 }
        ensures end { result.end ≡ records_of program.entry.table.now }
        ensures loops { result.around.loops ≡ 0 }
        ensures every { result.around.in_every ≡ false }
        ensures fin { result.around.in_fin ≡ false }
        ensures row { Ends result.table.now result.end result.place }
    {
        Row {
            table: program.table,
            around: Around::default(),
            place: 0,
            end: program.table.len() / Limits::RECORD_BYTES,
        }
    }

    // The only child of a construct.
    pub fn below(visit: Visit<'a>) -> Row<'a>
        requires { children visit.kind ≡ 1 }
        ensures table { result.table.now ≡ visit.entry.at.table.now }
        ensures place { result.place ≡ visit.entry.at.place + 1 }
        ensures end { result.end ≡ visit.entry.at.place + span_at visit.entry.at.table.now visit.entry.at.place }
        ensures around { around_of result.around ≡ inner (kind_at visit.entry.at.table.now visit.entry.at.place) (around_of visit.entry.around) }
        ensures row { Ends result.table.now result.end result.place }
    {
        Row {
            table: visit.at.table,
            around: visit.around.within(visit.kind),
            place: visit.at.place + 1,
            end: visit.at.place + visit.at.span(),
        }
    }
}
