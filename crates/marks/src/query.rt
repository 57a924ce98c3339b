// A query: the input events that now wake some place, as a 64-bit set with bit e for event e.
ghost use Rattle.std.specs.Prelude.{◌≡◌, ◌||◌, eqb, length, get_or};
ghost use Rattle.std.proofs.Math.Option.{none};
ghost use Rattle.std.specs.Int.Count.{ones};
ghost use Rattle.rules.specs.Stages.{first_refusal};
ghost use Rattle.rules.specs.Table.{program_of};
ghost use Rattle.table.specs.Named.{kind_number};
ghost use Rattle.rules.specs.Marks.{marks_stages, at_rest};
ghost use Rattle.rules.specs.Query as Query;
ghost use Rattle.marks.specs.Fitting.{Sound};
ghost use Rattle.marks.specs.Awaited.{awaited_set, heard_at, next_at, lowest_bit};

use crate::marked::Marked;
use rules::Limits;
use table::{Kind, Source};

// Await input and every input.
fn hears(kind: Kind) -> bool
    ensures { result ≡ (eqb (kind_number kind) 8 || eqb (kind_number kind) 15) }
{
    matches!(
        kind,
        Kind::Await(Source::Input) | Kind::Every(Source::Input)
    )
}

// The event that a construct waits for where it is marked, as a set.
fn heard_at(at: Marked<'_>) -> u64
    requires { Sound at.table.now }
    ensures { result ≡ heard_at at.entry.table.now at.entry.marks.now at.entry.place }
{
    if !at.is_marked() {
        return 0;
    }
    if hears(at.kind()) {
        1u64 << at.name()
    } else {
        0
    }
}

// The next record; behind an every or a fin the next construct, as what is inside does not wait.
fn next_at(at: Marked<'_>) -> usize
    ensures { result ≡ next_at at.entry.table.now at.entry.place }
{
    match at.kind() {
        Kind::Every(_) | Kind::Fin => at.place + at.span(),
        _ => at.place + 1,
    }
}

// The set of events that wake some place of the tree at rest.
pub fn awaited(table: &[u8], marks: &[u8]) -> u64
    requires sound { Sound table.now }
    requires passes { first_refusal (marks_stages table.now marks.now) ≡ none }
    ensures { result ≡ awaited_set (at_rest marks.now (program_of table.now)) }
{
    let records = table.len() / Limits::RECORD_BYTES;
    let mut set: u64 = 0;
    let mut place: usize = 0;
    // No range: the walk goes past whole constructs.
    while place < records {
        let at = Marked {
            table,
            marks,
            place,
        };
        set |= heard_at(at);
        place = next_at(at);
    }
    set
}

pub fn number_of(set: u64) -> u32
    ensures { result ≡ ones set }
{
    set.count_ones()
}

// 0 for the empty set, as in the rules and for C.
pub fn lowest_of(set: u64) -> u32
    ensures { result ≡ lowest_bit set }
{
    if set == 0 { 0 } else { set.trailing_zeros() }
}

#[derive(Clone, Copy, Debug, PartialEq, Eq)]
pub struct Asked {
    pub number: u32,
    pub lowest: u32,
}

// How many events wake some place, and the lowest of them.
pub fn ask(table: &[u8], marks: &[u8]) -> Asked
    requires sound { Sound table.now }
    requires passes { first_refusal (marks_stages table.now marks.now) ≡ none }
    ensures number { result.number ≡ length (Query.awaited (at_rest marks.now (program_of table.now))) }
    ensures lowest { result.lowest ≡ get_or (Query.awaited (at_rest marks.now (program_of table.now))) 0 0 }
{
    let set = awaited(table, marks);
    Asked {
        number: number_of(set),
        lowest: lowest_of(set),
    }
}
