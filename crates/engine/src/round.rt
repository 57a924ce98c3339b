// The round: pushes and pops until level 0, the whole program resumed after each.
ghost use Rattle.std.specs.Prelude.{◌≡◌, ◌+◌, ◌≤◌};
ghost use Rattle.rules.specs.Step.{internal_event};
ghost use Rattle.theory.specs.Round.{turn_of, event_of, onward, pushed, rounds, react, begin};
ghost use Rattle.table.specs.Constructs.{tree};
ghost use Rattle.memory.specs.Acts.{arrays_of};
ghost use Rattle.walks.specs.Listening.{Listens};
ghost use Rattle.walks.specs.Walks.{array_ops, how_of};
ghost use Rattle.engine.specs.Parts.{AllWait, Runs};
ghost use Rattle.engine.specs.Running.{most_rounds, event_number, Named, heard_in, round_of};

use crate::Rounded;
use crate::climb::climb;
use crate::part::down;
use crate::path::Path;
use crate::rest::{blocked, running};
use crate::resume::resume;
use table::{Construct, Source};
use walks::exec::exec;
use walks::wake::wake;
use walks::{How, Listeners, Reach, Running};

// The state of a turn at a level.
fn turn_of(level: u32) -> u32
    requires { level ≤ most_rounds + 1 }
    ensures { result ≡ turn_of level }
{
    level + Running::TURN
}

// The event that is pending; none is named 0.
fn pending(how: How) -> Option<usize>
    ensures event { event_number result ≡ event_of (how_of how) }
    ensures named { Named result }
{
    match how {
        How::Ringing(event) if event > 0 => Some(event),
        _ => None,
    }
}

// The part that runs, and then what stands above it. All that runs stands within the reach.
fn run_part(
    program: Construct<'_>,
    level: u32,
    reach: Reach,
    run: &mut Running,
    out: &mut [u8],
) -> Option<usize>
    requires root { program.place ≡ 0 }
    requires level_bound { level ≤ most_rounds + 1 }
    requires runs { Runs program.table.now (turn_of level) run.old.states reach }
    ensures left { heard_in result run.new out.new ≡ onward array_ops (tree program.entry) level run.old.states (arrays_of run.old.memory out.old) }
    ensures named { Named result }
{
    if reach.to <= reach.from {
        return None;
    }
    let n = turn_of(level);
    let mut path = Path::new(program);
    down(&mut path, reach, &run.states);
    let part = path.end();
    if blocked(part, n, &run.states) {
        return None;
    }
    let how = resume(part, n, run, out);
    pending(climb(&path, how, n, run, out))
}

// The whole program runs on at a level; where it is blocked, nothing is left to do.
fn onward(program: Construct<'_>, level: u32, run: &mut Running, out: &mut [u8]) -> Option<usize>
    requires root { program.place ≡ 0 }
    requires level_bound { level ≤ most_rounds + 1 }
    ensures left { heard_in result run.new out.new ≡ onward array_ops (tree program.entry) level run.old.states (arrays_of run.old.memory out.old) }
    ensures named { Named result }
{
    let reach = running(program, turn_of(level), &run.states);
    run_part(program, level, reach, run, out)
}

// The same at a level that a push of an internal event came to.
#[tactic(auto, unfolding(theory::specs::Round::pushed))]
fn pushed(
    program: Construct<'_>,
    event: usize,
    level: u32,
    listeners: &Listeners,
    run: &mut Running,
    out: &mut [u8],
) -> Option<usize>
    requires root { program.place ≡ 0 }
    requires level_bound { level ≤ most_rounds + 1 }
    requires listens { Listens program.table.now listeners.now }
    ensures left { heard_in result run.new out.new ≡ pushed array_ops (tree program.entry) (internal_event event) level run.old.states (arrays_of run.old.memory out.old) }
    ensures named { Named result }
{
    let reach = listeners.reach(Source::Internal, event);
    wake(program, Source::Internal, event, reach, &mut run.states);
    onward(program, level, run, out)
}

// From level 1 on, with the event that is pending there: at most so many pushes and pops.
fn rounds(
    program: Construct<'_>,
    most: u32,
    first: Option<usize>,
    listeners: &Listeners,
    run: &mut Running,
    out: &mut [u8],
) -> Rounded
    requires root { program.place ≡ 0 }
    requires most_le_most_rounds { most ≤ most_rounds }
    requires named { Named first }
    requires listens { Listens program.table.now listeners.now }
    ensures { round_of result run.new out.new ≡ rounds array_ops (tree program.entry) most (event_number first) 1 0 1 run.old.states (arrays_of run.old.memory out.old) }
{
    let mut event = first;
    let mut level: u32 = 1;
    let mut rounded = Rounded {
        grounded: false,
        emitted: 0,
        highest: 1,
    };
    for _ in 0..most {
        run.memory.tick();
        let Some(rung) = event else {
            if level == 1 {
                rounded.grounded = true;
                return rounded;
            }
            level -= 1;
            event = onward(program, level, run, out);
            continue;
        };
        level += 1;
        rounded.emitted += 1;
        rounded.highest = rounded.highest.max(level);
        event = pushed(program, rung, level, listeners, run, out);
    }
    rounded
}

// A reaction to an input event, pushed to level 1. All waited before, so that only those run that it woke.
pub fn react(
    program: Construct<'_>,
    event: usize,
    most: u32,
    listeners: &Listeners,
    run: &mut Running,
    out: &mut [u8],
) -> Rounded
    requires root { program.place ≡ 0 }
    requires most_le_most_rounds { most ≤ most_rounds }
    requires listens { Listens program.table.now listeners.now }
    requires all_wait { AllWait program.table.now run.old.states }
    ensures { round_of result run.new out.new ≡ react array_ops (tree program.entry) most event run.old.states (arrays_of run.old.memory out.old) }
{
    run.memory.tick();
    let reach = listeners.reach(Source::Input, event);
    wake(program, Source::Input, event, reach, &mut run.states);
    let first = run_part(program, 1, reach, run, out);
    rounds(program, most, first, listeners, run, out)
}

// A start: the program itself begins at level 1.
#[tactic(auto, unfolding(theory::specs::Round::begin))]
pub fn begin(
    program: Construct<'_>,
    most: u32,
    listeners: &Listeners,
    run: &mut Running,
    out: &mut [u8],
) -> Rounded
    requires root { program.place ≡ 0 }
    requires most_le_most_rounds { most ≤ most_rounds }
    requires listens { Listens program.table.now listeners.now }
    ensures { round_of result run.new out.new ≡ begin array_ops (tree program.entry) most run.old.states (arrays_of run.old.memory out.old) }
{
    run.memory.tick();
    let how = exec(program, turn_of(1), run, out);
    rounds(program, most, pending(how), listeners, run, out)
}
