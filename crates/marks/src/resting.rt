// What remains of a construct, by its kind and by how many records remain of its parts; and how many that makes.
ghost use Rattle.std.specs.Prelude.{◌≡◌, ◌+◌, ◌<◌};
ghost use Rattle.marks.specs.Cursors.{tree};
ghost use Rattle.marks.specs.Fitting.{Sound};
ghost use Rattle.marks.specs.Rest.{rest_span, Rests};
ghost use Rattle.marks.specs.Leaving.{head_number, count_of, joined, other_span, Leaves};

use crate::counted::Counted;
use crate::marked::Marked;
use rules::Limits;
use table::{Kind, Par};

// A construct over what remains of its first part: a sequence or a loop with the other part whole, an and or an or with what remains of it.
#[derive(Clone, Copy, Debug, PartialEq, Eq)]
pub enum Head {
    Sequence,
    Loop,
    Par(Par),
}

impl Head {
    // The kind of its record in a remaining program.
    pub fn number(self) -> u8
        ensures { result ≡ head_number self }
    {
        match self {
            Head::Sequence => 13,
            Head::Loop => 20,
            Head::Par(Par::And) => 21,
            Head::Par(Par::Or) => 22,
        }
    }

    // How many records it has of the other part.
    fn other_count(self, other: Counted<'_>) -> usize
        ensures count { result ≡ other_span self other.entry.at.marks.now (tree other.entry.at) }
        ensures two_bytes { result < 65536 }
    {
        match self {
            Head::Sequence | Head::Loop => other.at.span(),
            Head::Par(_) => other.count(),
        }
    }
}

// What remains of a construct: nothing, all of it, what remains of one part, or a construct over both.
#[derive(Clone, Copy)]
pub enum Rest<'a> {
    Nothing,
    Whole,
    Only(Counted<'a>),
    Both(Head, Counted<'a>, Counted<'a>),
}

// The same of a construct of two parts, by its kind; the other part of a loop is its body once more.
fn joined<'a>(kind: Kind, first: Counted<'a>, other: Counted<'a>) -> Rest<'a>
    ensures { result ≡ joined kind (count_of first.entry) (count_of other.entry) first.entry other.entry }
{
    if first.count() == 0 {
        return Rest::Only(other);
    }
    match kind {
        Kind::Sequence => Rest::Both(Head::Sequence, first, other),
        Kind::Loop => Rest::Both(Head::Loop, first, other),
        Kind::Par(par) if other.count() != 0 => Rest::Both(Head::Par(par), first, other),
        _ => Rest::Only(first),
    }
}

// The same of any construct, from the counts of the places behind it.
pub fn rest_at<'a>(at: Marked<'a>, rests: &'a [u16; Limits::RECORDS]) -> Rest<'a>
    requires sound { Sound at.table.now }
    requires known { Rests at.table.now at.marks.now (at.place + 1) rests.now }
    ensures { Leaves result at.entry.table.now at.entry.marks.now at.entry.place }
{
    let kind = at.kind();
    match kind {
        Kind::Await(_) | Kind::Every(_) | Kind::Fin if at.is_marked() => Rest::Whole,
        Kind::If | Kind::Sequence | Kind::Par(_) => {
            let first = at.first();
            let second = at.second();
            joined(
                kind,
                Counted { at: first, rests },
                Counted { at: second, rests },
            )
        }
        Kind::Loop => {
            let body = Counted {
                at: at.first(),
                rests,
            };
            joined(kind, body, body)
        }
        _ => Rest::Nothing,
    }
}

// How many records remain of a construct, from the counts of the places behind it.
pub fn count_at<'a>(at: Marked<'a>, rests: &'a [u16; Limits::RECORDS]) -> usize
    requires sound { Sound at.table.now }
    requires known { Rests at.table.now at.marks.now (at.place + 1) rests.now }
    ensures records { result ≡ rest_span at.entry.marks.now (tree at.entry) }
    ensures two_bytes { result < 65536 }
{
    match rest_at(at, rests) {
        Rest::Nothing => 0,
        Rest::Whole => at.span(),
        Rest::Only(part) => part.count(),
        Rest::Both(head, first, other) => 1 + first.count() + head.other_count(other),
    }
}
