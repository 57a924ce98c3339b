// A push wakes what waits for its event.
ghost use Rattle.std.specs.Prelude.{◌≡◌};
ghost use Rattle.rules.specs.Step.{wakes};
ghost use Rattle.theory.specs.State.{awake};
ghost use Rattle.table.specs.Constructs.{tree};
ghost use Rattle.walks.specs.Walks.{event_from};
ghost use Rattle.walks.specs.Listening.{Hear, HeardIn};

use crate::part::{Reach, part_with};
use crate::running::Running;
use rules::Limits;
use table::{Construct, Kind, Source};

// What waits for the event at the construct's place and below is woken.
#[cycle(awake)]
#[tactic(auto, using(crate::proofs::Nodes::awake_node), unfolding(theory::specs::State::awake))]
fn awake(at: Construct<'_>, source: Source, event: usize, states: &mut [u32; Limits::RECORDS])
    ensures { states.new ≡ awake (wakes (event_from source event)) (tree at.entry) states.old }
{
    let mut last = at;
    // From each construct to its last part: nothing is counted here.
    loop {
        last = match last.kind() {
            Kind::If | Kind::Sequence | Kind::Par(_) => {
                awake_part(last.first(), source, event, states);
                last.second()
            }
            Kind::Loop => last.first(),
            Kind::Await(awaited) | Kind::Every(awaited) => {
                if awaited == source
                    && last.name() == event
                    && states[last.place] == Running::WAITING
                {
                    states[last.place] = Running::WOKEN;
                }
                return;
            }
            _ => return,
        };
    }
}

// The same of a part: a nothing, an act, an emit or a break takes no walk, and no more does an await that is not waiting.
#[cycle(awake)]
#[tactic(auto, using(crate::proofs::Nodes::awake_node), unfolding(theory::specs::State::awake))]
fn awake_part(at: Construct<'_>, source: Source, event: usize, states: &mut [u32; Limits::RECORDS])
    ensures { states.new ≡ awake (wakes (event_from source event)) (tree at.entry) states.old }
{
    match at.kind() {
        Kind::Nothing | Kind::Act(_) | Kind::Emit | Kind::Break => {}
        Kind::Await(_) if states[at.place] != Running::WAITING => {}
        _ => awake(at, source, event, states),
    }
}

// The smallest construct that has all who listen within the reach, from part to part.
fn holder<'a>(program: Construct<'a>, reach: Reach) -> Construct<'a>
    requires { program.place ≡ 0 }
    ensures table { result.table.now ≡ program.entry.table.now }
    ensures heard { HeardIn program.entry.table.now reach result.place }
{
    let mut at = program;
    while let Some(part) = part_with(at, reach) {
        at = part;
    }
    at
}

// The whole program, where all that wait for the event stand within the reach.
// Source and event are two parameters, no struct: each caller names the source as a constant beside a number that it has.
pub fn wake(
    program: Construct<'_>,
    source: Source,
    event: usize,
    reach: Reach,
    states: &mut [u32; Limits::RECORDS],
)
    requires whole { program.place ≡ 0 }
    requires hear { Hear program.table.now source event reach }
    ensures { states.new ≡ awake (wakes (event_from source event)) (tree program.entry) states.old }
{
    if reach.to <= reach.from {
        return;
    }
    awake(holder(program, reach), source, event, states);
}
