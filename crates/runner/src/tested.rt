// What the runner tests before it prints its first line: the table, the output room, the event file.
ghost use Rattle.std.specs.Prelude.{◌≡◌, leb};
ghost use Rattle.rules.specs.Limits.{runner_outputs};
ghost use Rattle.acceptance.specs.Verdicts.{verdict_of};
ghost use Rattle.calls.specs.Stages.{judged};
ghost use Rattle.lines.specs.Printed.{runner_stages};

use acceptance::Announced;
use rules::Limits;
use table::{Refusal, Stage};

fn has_room(outputs: u32) -> bool
    ensures { result ≡ leb outputs runner_outputs }
{
    outputs as usize <= Limits::RUNNER_OUTPUTS
}

pub fn verdict(table: &[u8], events: &[u8]) -> Result<Announced, Refusal>
    ensures { verdict_of result ≡ judged table.now (runner_stages table.now events.now) }
{
    let announced = acceptance::check(table)?;
    if !has_room(announced.outputs) {
        return Err(Refusal::at(Stage::Room, 0));
    }
    if let Some(place) = calls::first_bad(events) {
        return Err(Refusal::at(Stage::Event, place));
    }
    Ok(announced)
}
