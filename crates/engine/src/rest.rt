// A level is done where nothing is left to run.
ghost use Rattle.std.specs.Prelude.{◌≡◌};
ghost use Rattle.theory.specs.State.{still_at, still};
ghost use Rattle.table.specs.Constructs.{tree};
ghost use Rattle.engine.specs.Parts.{Runs};

use rules::Limits;
use table::{Construct, Kind};
use walks::{Reach, Running};

// Neither woken nor n, a turn at this level.
fn at_rest(state: u32, n: u32) -> bool
    ensures { result ≡ still_at n state }
{
    state != Running::WOKEN && state != n
}

// Blocked, or nothing lives: each state at the construct and below rests.
#[cycle(blocked)]
#[tactic(auto, unfolding(theory::specs::State::still))]
pub fn blocked(at: Construct<'_>, n: u32, states: &[u32; Limits::RECORDS]) -> bool
    ensures { result ≡ still n (tree at.entry) states.now }
{
    let mut last = at;
    // From each construct to its last part: nothing is counted here.
    loop {
        let rests = at_rest(states[last.place], n);
        last = match last.kind() {
            Kind::If | Kind::Sequence | Kind::Par(_) => {
                if !rests || !blocked_part(last.first(), n, states) {
                    return false;
                }
                last.second()
            }
            Kind::Loop if rests => last.first(),
            _ => return rests,
        };
    }
}

// The same of a part: a record that has none itself takes no walk.
#[cycle(blocked)]
#[tactic(auto, unfolding(theory::specs::State::still))]
fn blocked_part(at: Construct<'_>, n: u32, states: &[u32; Limits::RECORDS]) -> bool
    ensures { result ≡ still n (tree at.entry) states.now }
{
    match at.kind() {
        Kind::If | Kind::Sequence | Kind::Par(_) | Kind::Loop => blocked(at, n, states),
        _ => at_rest(states[at.place], n),
    }
}

// All that runs at this level stands within the reach: from the first that runs to the last.
pub fn running(program: Construct<'_>, n: u32, states: &[u32; Limits::RECORDS]) -> Reach
    ensures { Runs program.entry.table.now n states.now result }
{
    let records = program.table.len() / Limits::RECORD_BYTES;
    let states = &states[..records];
    let Some(from) = states.iter().position(|state| !at_rest(*state, n)) else {
        return Reach {
            from: records,
            to: 0,
        };
    };
    let last = states.iter().rposition(|state| !at_rest(*state, n));
    Reach {
        from,
        to: last.unwrap_or(from) + 1,
    }
}
