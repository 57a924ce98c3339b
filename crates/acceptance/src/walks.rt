// The lowest place that fails a test: of the records one by one, or by a recursive walk over the tree, the span falling at each call.
ghost use Rattle.std.specs.Prelude.{◌≡◌};
ghost use Rattle.rules.specs.Table.{records_of};
ghost use Rattle.rules.specs.Check.{visits_of};
ghost use Rattle.table.specs.Found.{Inside};
ghost use Rattle.acceptance.specs.Firsts.{Finds, FindsRecord};
ghost use Rattle.acceptance.specs.Visits.{walk_of};

use crate::records::{Record, records_of};
use crate::visit::Visit;
use table::Construct;

// The lowest place of a record that is not right.
pub fn first_record<F: Fn(Record<'_>) -> bool>(table: &[u8], right: F) -> Option<usize>
    requires { F.IsAlwaysCallable right }
    ensures found { FindsRecord (F.post right) table.now result }
    ensures inside { Inside table.now result }
{
    for place in 0..records_of(table) {
        if !right(Record { table, place }) {
            return Some(place);
        }
    }
    None
}

// The lowest place from a construct on, within it, that fails a test.
#[tactic(auto, using(crate::proofs::Firsts::finding))]
fn first_within<F: Fn(Visit<'_>) -> bool>(visit: Visit<'_>, fails: &F) -> Option<usize>
    requires { F.IsAlwaysCallable fails.now }
    ensures found { Finds (F.post fails.now) (walk_of visit.entry) result }
    ensures inside { Inside visit.entry.at.table.now result }
{
    if fails(visit) {
        return Some(visit.at.place);
    }
    match visit.kind.children() {
        0 => None,
        1 => first_within(visit.first(), fails),
        _ => {
            if let Some(place) = first_within(visit.first(), fails) {
                return Some(place);
            }
            first_within(visit.second(), fails)
        }
    }
}

// The lowest place of a program that fails a test.
pub fn first_of_program<F: Fn(Visit<'_>) -> bool>(program: Construct<'_>, fails: F) -> Option<usize>
    requires callable { F.IsAlwaysCallable fails }
    requires first { program.place ≡ 0 }
    ensures found { Finds (F.post fails) (visits_of program.entry.table.now) result }
    ensures inside { Inside program.entry.table.now result }
{
    first_within(Visit::of(program), &fails)
}
