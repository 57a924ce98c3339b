// What a start, a reaction and a list answer to C, which reads a refusal as its number, 0 for none.
ghost use Rattle.std.specs.Prelude.{◌≡◌};
ghost use Rattle.std.proofs.Math.Option.{none, some};
ghost use Rattle.table.specs.Refusing.{refusal_of};
ghost use Rattle.calls.specs.Answers.{answer_of, nothing_done};
ghost use Rattle.landarbeso.specs.Answers.{flat, flat_done, flat_listed};

use calls::{Done, Listed};
use table::Refusal;

// Number and place of the refusal, 0 and 0 for none; finished 1 or 0; the counts.
#[repr(C)]
#[derive(Clone, Copy, Debug, PartialEq, Eq)]
pub struct Answer {
    pub refused: u32,
    pub place: u32,
    pub finished: u32,
    pub highest: u32,
    pub steps: u64,
    pub emitted: u64,
    pub outputs: u64,
}

// What was done, and no refusal.
impl From<Done> for Answer {
    ghost from_gives = { λ done answer. answer ≡ flat none (answer_of done) };

    fn from(done: Done) -> Answer {
        Answer {
            refused: 0,
            place: 0,
            finished: u32::from(done.finished),
            highest: done.highest,
            steps: done.steps,
            emitted: done.emitted,
            outputs: done.outputs,
        }
    }
}

// Zero counts and waiting.
impl From<Refusal> for Answer {
    ghost from_gives = { λ refusal answer. answer ≡ flat (some (refusal_of refusal)) nothing_done };

    fn from(refusal: Refusal) -> Answer {
        Answer {
            refused: refusal.stage.number(),
            place: refusal.place,
            finished: 0,
            highest: 0,
            steps: 0,
            emitted: 0,
            outputs: 0,
        }
    }
}

impl From<Result<Done, Refusal>> for Answer {
    ghost from_gives = { λ done answer. answer ≡ flat_done done };

    fn from(done: Result<Done, Refusal>) -> Answer {
        match done {
            Ok(done) => done.into(),
            Err(refusal) => refusal.into(),
        }
    }
}

// A list that stopped has its refusal beside the counts.
impl From<Result<Listed, Refusal>> for Answer {
    ghost from_gives = { λ listed answer. answer ≡ flat_listed listed };

    fn from(listed: Result<Listed, Refusal>) -> Answer {
        match listed {
            Ok(listed) => match listed.stopped {
                Some(refusal) => Answer {
                    refused: refusal.stage.number(),
                    place: refusal.place,
                    ..Answer::from(listed.done)
                },
                None => listed.done.into(),
            },
            Err(refusal) => refusal.into(),
        }
    }
}
