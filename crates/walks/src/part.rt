// A construct's part that has all places of a range.
ghost use Rattle.std.specs.Prelude.{◌≡◌, ◌<◌, IfSome, IfNone};
ghost use Rattle.rules.specs.Limits.{most_records};
ghost use Rattle.walks.specs.Listening.{Within, NoneWithin, widened};

use table::{Construct, Kind};

// The places from one on and before another. (std's `Range` is not `Copy`.)
#[derive(Clone, Copy, Debug, PartialEq, Eq)]
pub struct Reach {
    pub from: usize,
    pub to: usize,
}

impl Reach {
    // One more place.
    pub(crate) fn widened(self, place: usize) -> Reach
        requires { place < most_records }
        ensures { result ≡ widened place self }
    {
        Reach {
            from: self.from.min(place),
            to: self.to.max(place + 1),
        }
    }
}

// None where no part has them all.
pub fn part_with<'a>(at: Construct<'a>, reach: Reach) -> Option<Construct<'a>>
    ensures table { IfSome result (λ part. part.table.now ≡ at.entry.table.now) }
    ensures below { IfSome result (λ part. at.entry.place < part.place) }
    ensures part { IfSome result (λ part. Within at.entry.table.now at.entry.place reach part.place) }
    ensures none { IfNone result (NoneWithin at.entry.table.now at.entry.place reach) }
{
    match at.kind() {
        Kind::Loop => Some(at.first()),
        Kind::If | Kind::Sequence | Kind::Par(_) => {
            let second = at.second();
            if reach.to <= second.place {
                return Some(at.first());
            }
            if second.place <= reach.from {
                return Some(second);
            }
            None
        }
        _ => None,
    }
}
