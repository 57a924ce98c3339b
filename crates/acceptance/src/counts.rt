// The announced numbers, from what a walk counts.
ghost use Rattle.std.specs.Prelude.{◌≡◌, ◌≤◌, ◌||◌, true};
ghost use Rattle.rules.specs.Limits.{announce};
ghost use Rattle.rules.specs.Check.{visits_of};
ghost use Rattle.acceptance.specs.Visits.{around_of, visit_of};
ghost use Rattle.acceptance.specs.Counts.{with_visit, tallied, announced_of};
ghost use Rattle.acceptance.specs.Rows.{Ends, Counts, given};

use crate::Announced;
use crate::row::Row;
use crate::visit::Visit;
use memory::Act;
use rules::Limits;
use table::{Construct, Kind};

// How many emits, how deep loops nest, how many outputs outside and inside an every.
#[derive(Clone, Copy, Debug, PartialEq, Eq, Default)]
pub struct Tally {
    pub emits: u16,
    pub deepest: u8,
    pub outside: u16,
    pub inside: u16,
}

impl Tally {
    // One construct more; a count stops at the largest number, to which no table comes.
    fn add(&mut self, visit: Visit<'_>)
        ensures { self.new ≡ with_visit (visit_of visit.entry) self.old }
    {
        match visit.kind {
            Kind::Emit => self.emits = self.emits.saturating_add(1),
            Kind::Loop => self.deepest = self.deepest.max(visit.around.loops + 1),
            Kind::Act(Act::Output) if visit.around.in_every => {
                self.inside = self.inside.saturating_add(1);
            }
            Kind::Act(Act::Output) => self.outside = self.outside.saturating_add(1),
            _ => {}
        }
    }
}

// Counts a row under an every or a fin, up to a construct that fails. None that passes has one child, so that its records are gone through one by one.
fn count_plain(row: Row<'_>, tally: &mut Tally) -> bool
    requires row { Ends row.table.now row.end row.place }
    requires confined { (row.around.in_every || row.around.in_fin) ≡ true }
    ensures { Counts (given result tally.new) row.entry.table.now (around_of row.entry.around) row.entry.end row.entry.place tally.old }
{
    let table = row.table;
    let around = row.around;
    for place in row.place..row.end {
        let visit = Visit::new(Construct { table, place }, around);
        if !visit.passes() {
            return false;
        }
        tally.add(visit);
    }
    true
}

// Counts all of a row and all below it, up to a construct that fails stage 4, 5, 6 or 7, where it answers no. What stands around a construct with no child or two
// stands around its children too, so that a row is gone through place by place, and only below a construct with one child is a row of its own.
fn count(row: Row<'_>, tally: &mut Tally) -> bool
    requires { Ends row.table.now row.end row.place }
    ensures { Counts (given result tally.new) row.entry.table.now (around_of row.entry.around) row.entry.end row.entry.place tally.old }
{
    if row.around.in_every || row.around.in_fin {
        return count_plain(row, tally);
    }
    let table = row.table;
    let around = row.around;
    let mut place = row.place;
    while place < row.end {
        let visit = Visit::new(Construct { table, place }, around);
        if !visit.passes() {
            return false;
        }
        tally.add(visit);
        if visit.kind.children() == 1 {
            if !count(Row::below(visit), tally) {
                return false;
            }
            place += visit.at.span();
        } else {
            place += 1;
        }
    }
    true
}

// Of a whole program.
pub fn tally_of_program(program: Construct<'_>) -> Option<Tally>
    requires { program.place ≡ 0 }
    ensures { result ≡ tallied (visits_of program.entry.table.now) }
{
    let mut tally = Tally::default();
    if count(Row::of(program), &mut tally) {
        Some(tally)
    } else {
        None
    }
}

impl Tally {
    // Of a program with so many records.
    pub fn announced(self, records: u16) -> Announced
        requires records { records ≤ 256 }
        requires emits { self.emits ≤ 256 }
        requires deepest { self.deepest ≤ 8 }
        requires outside { self.outside ≤ 256 }
        requires inside { self.inside ≤ 256 }
        ensures { announced_of result ≡ announce records self.emits self.deepest self.outside self.inside }
    {
        let emits = self.emits;
        let loops = self.deepest;
        // All four fit 32 bits, as the limits say: a test of that would have an outcome that never comes.
        Announced {
            emitted: Limits::emitted(emits, loops) as u32,
            highest: Limits::level(emits, loops) as u32,
            steps: Limits::steps(records, emits, loops) as u32,
            outputs: Limits::outputs(self.outside, self.inside, emits, loops) as u32,
        }
    }
}
