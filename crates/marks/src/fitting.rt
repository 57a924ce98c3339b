// Stage 8: the marks' number, each mark by itself, and whether the marks fit.
ghost use Rattle.std.specs.Prelude.{◌≡◌, ◌+◌, ◌≤◌, ◌<◌};
ghost use Rattle.rules.specs.Limits.{most_records};
ghost use Rattle.rules.specs.Stages.{failing, first_refusal};
ghost use Rattle.rules.specs.Table.{records_of};
ghost use Rattle.rules.specs.Marks.{mark_right, marks_stages};
ghost use Rattle.table.specs.Places.{Place};
ghost use Rattle.table.specs.Found.{first_of, Inside};
ghost use Rattle.marks.specs.Cursors.{tree};
ghost use Rattle.marks.specs.Fitting.{misfits_here, seen_of, join_seen, side_fit, par_fit, Says, FitFrom, LetsPass, refused_at};

use crate::marked::Marked;
use rules::Limits;
use table::{Kind, Par};

// The lowest mark over 1, or 1 on a kind that does not wait.
fn first_mark(program: Marked<'_>) -> Option<usize>
    ensures first { result ≡ first_of (failing (mark_right program.entry.table.now program.entry.marks.now) 0 (records_of program.entry.table.now)) }
    ensures inside { Inside program.entry.table.now result }
{
    (0..program.records()).find(
        |place|
            requires { place.now < records_of program.table.now }
        { !program.at(*place).is_right() },
    )
}

// What the marks say of a construct: whether it has one, and the lowest construct in it that does not fit.
#[derive(Clone, Copy, Debug, PartialEq, Eq)]
pub struct Seen {
    pub marked: bool,
    pub misfit: Option<usize>,
}

// Whether a construct of two children does not fit, by which of them has marks.
fn misfits_here(kind: Kind, left: bool, right: bool) -> bool
    ensures { result ≡ misfits_here kind left right }
{
    match kind {
        Kind::Par(Par::And) => false,
        Kind::Par(Par::Or) => left != right,
        _ => left && right,
    }
}

// The construct of two children at a place, from what the marks say of each.
fn join_seen(kind: Kind, place: usize, left: Seen, right: Seen) -> Seen
    ensures { result ≡ join_seen kind place left right }
{
    let marked = left.marked || right.marked;
    let misfit = if misfits_here(kind, left.marked, right.marked) {
        Some(place)
    } else {
        left.misfit.or(right.misfit)
    };
    Seen { marked, misfit }
}

// What the marks say of a construct.
fn see(at: Marked<'_>) -> Seen
    ensures seen { result ≡ seen_of at.entry.marks.now (tree at.entry) }
    ensures inside { Inside at.entry.table.now result.misfit }
{
    let kind = at.kind();
    match kind {
        Kind::Await(_) | Kind::Every(_) | Kind::Fin => Seen {
            marked: at.is_marked(),
            misfit: None,
        },
        Kind::If | Kind::Sequence | Kind::Par(_) => {
            let left = see(at.first());
            let right = see(at.second());
            join_seen(kind, at.place, left, right)
        }
        Kind::Loop => see(at.first()),
        _ => Seen {
            marked: false,
            misfit: None,
        },
    }
}

// Whether a construct has marks, or does not fit.
#[derive(Clone, Copy, Debug, PartialEq, Eq, PartialOrd, Ord)]
pub enum Fit {
    Unmarked,
    Marked,
    Misfit,
}

// An if or a sequence, by its sides: it has marks on one of them at most.
fn side_fit(left: Fit, right: Fit) -> Fit
    ensures { result ≡ side_fit left right }
{
    match (left, right) {
        (fit, Fit::Unmarked) | (Fit::Unmarked, fit) => fit,
        _ => Fit::Misfit,
    }
}

// An and or an or, by its sides: an or has marks on both of them or on neither.
fn par_fit(par: Par, left: Fit, right: Fit) -> Fit
    ensures { result ≡ par_fit par left right }
{
    match par {
        Par::And => left.max(right),
        Par::Or if left == right => left,
        Par::Or => Fit::Misfit,
    }
}

// The same of any construct, from the places after it.
fn fit_at(at: Marked<'_>, fits: &[Fit; Limits::RECORDS]) -> Fit
    requires few { records_of at.table.now ≤ most_records }
    requires known { FitFrom at.table.now at.marks.now (at.place + 1) fits.now }
    ensures { Says result (seen_of at.entry.marks.now (tree at.entry)) }
{
    match at.kind() {
        Kind::Await(_) | Kind::Every(_) | Kind::Fin => {
            if at.is_marked() {
                Fit::Marked
            } else {
                Fit::Unmarked
            }
        }
        Kind::If | Kind::Sequence => side_fit(fits[at.first().place], fits[at.second().place]),
        Kind::Loop => fits[at.first().place],
        Kind::Par(par) => par_fit(par, fits[at.first().place], fits[at.second().place]),
        _ => Fit::Unmarked,
    }
}

// One pass from the last place on: where it answers true, stage 8 lets the marks pass; else the walks look for the place. (Beside `see`, which walks the tree,
// since marks that pass are the common case, and a pass has no call for each construct.)
fn all_fit(program: Marked<'_>) -> bool
    ensures { LetsPass program.entry.table.now program.entry.marks.now result }
{
    let records = program.records();
    // The array has no room for more.
    if Limits::RECORDS < records {
        return false;
    }
    let mut fits = [Fit::Unmarked; Limits::RECORDS];
    for place in (0..records).rev() {
        let at = program.at(place);
        if !at.is_right() {
            return false;
        }
        fits[place] = fit_at(at, &fits);
    }
    fits[0] != Fit::Misfit
}

// Stage 8 of a table whose shape is right.
pub fn marks_refused(table: &[u8], marks: &[u8]) -> Option<usize>
    requires { Place table.now 0 }
    ensures refused { refused_at result ≡ first_refusal (marks_stages table.now marks.now) }
    ensures inside { Inside table.now result }
{
    if marks.len() != table.len() / Limits::RECORD_BYTES {
        return Some(0);
    }
    let program = Marked {
        table,
        marks,
        place: 0,
    };
    if all_fit(program) {
        return None;
    }
    match first_mark(program) {
        None => see(program).misfit,
        found => found,
    }
}
