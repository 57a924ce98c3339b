// The way down from the root to the smallest construct that holds all that runs.
ghost use Rattle.std.specs.Prelude.{◌≡◌, ◌+◌, ◌≤◌, ◌<◌, IfSome, get_or};
ghost use Rattle.rules.specs.Table.{kind_at, span_at};
ghost use Rattle.table.specs.Kinds.{children_of};
ghost use Rattle.engine.specs.Parts.{idling, right_free, Step, Way};

use crate::path::Path;
use rules::Limits;
use table::{Construct, Kind};
use walks::part::part_with;
use walks::{Reach, Running};

// Does nothing live at the construct and below?
pub fn all_idle(at: Construct<'_>, states: &[u32; Limits::RECORDS]) -> bool
    ensures { result ≡ idling states.now at.entry.place (at.entry.place + span_at at.entry.table.now at.entry.place) }
{
    states[at.place..at.place + at.span()]
        .iter()
        .all(|state| *state == Running::IDLE)
}

// May the right of the construct run alone?
#[tactic(auto, unfolding(crate::specs::Parts::right_free))]
fn right_free(at: Construct<'_>, right: Construct<'_>, states: &[u32; Limits::RECORDS]) -> bool
    requires right { at.place < right.place }
    requires sides { 2 ≤ children_of (kind_at at.table.now at.place) }
    ensures { result ≡ right_free at.entry.table.now states.now at.entry.place right.entry.place }
{
    match at.kind() {
        Kind::Par(_) => states[at.place] == Running::IDLE,
        _ => states[at.place + 1..right.place]
            .iter()
            .all(|state| *state == Running::IDLE),
    }
}

// The part that runs alone, if all that runs stands within the reach, below the construct.
fn part_of<'a>(
    at: Construct<'a>,
    reach: Reach,
    states: &[u32; Limits::RECORDS],
) -> Option<Construct<'a>>
    requires { at.place < reach.from }
    ensures table { IfSome result (λ part. part.table.now ≡ at.entry.table.now) }
    ensures step { IfSome result (λ part. Step at.entry.table.now states.now reach at.entry.place part.place) }
{
    let part = part_with(at, reach)?;
    if part.place == at.place + 1 || right_free(at, part, states) {
        return Some(part);
    }
    None
}

// How the part that runs is come to: the path leads on to it, from the root. (It is lent, since it is too long to be handed out.)
pub fn down(path: &mut Path<'_>, reach: Reach, states: &[u32; Limits::RECORDS])
    requires steps { path.old.steps ≡ 0 }
    requires root { get_or path.old.places 0 0 ≡ 0 }
    ensures table { path.new.table.now ≡ path.old.table.now }
    ensures way { Way path.old.table.now states.now reach path.new.places path.new.steps }
{
    let mut at = path.end();
    // From part to part: nothing is counted here.
    while at.place < reach.from {
        let Some(part) = part_of(at, reach, states) else {
            return;
        };
        path.push(part);
        at = part;
    }
}
