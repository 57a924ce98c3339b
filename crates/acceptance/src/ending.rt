// Whether a construct may end at once: recursive walks over the tree, the span falling at each call.
ghost use Rattle.std.specs.Prelude.{◌≡◌};
ghost use Rattle.rules.specs.Check.{may_break, may_end};
ghost use Rattle.table.specs.Constructs.{tree};

use table::{Construct, Kind, Par, Source};

// Whether a break stands at a construct or below with no nearer loop.
pub fn may_break(at: Construct<'_>) -> bool
    ensures { result ≡ may_break (tree at.entry) }
{
    match at.kind() {
        Kind::Break => true,
        Kind::If | Kind::Sequence | Kind::Par(_) => {
            may_break(at.first()) || may_break(at.second())
        }
        // A loop keeps its own; under an every or a fin there is none.
        _ => false,
    }
}

// Whether a construct may end at once.
pub fn may_end(at: Construct<'_>) -> bool
    ensures { result ≡ may_end (tree at.entry) }
{
    match at.kind() {
        Kind::Nothing | Kind::Act(_) | Kind::Await(Source::Internal) | Kind::Emit => true,
        Kind::Await(Source::Input) | Kind::Break | Kind::Every(_) | Kind::Fin => false,
        Kind::Loop => may_break(at.first()),
        Kind::If | Kind::Par(Par::Or) => may_end(at.first()) || may_end(at.second()),
        Kind::Sequence | Kind::Par(Par::And) => may_end(at.first()) && may_end(at.second()),
    }
}
