// Why a call is refused, by the stage that fails, and where.
ghost use Rattle.std.specs.Prelude.{◌≡◌, ◌<◌, ◌^◌};
ghost use Rattle.rules.specs.Stages.{refusal};
ghost use Rattle.table.specs.Refusing.{stage_number, refusal_of};

#[derive(Clone, Copy, Debug, PartialEq, Eq)]
pub enum Stage {
    Length = 1,
    Shape = 2,
    Ranges = 3,
    LooseBreak = 4,
    NotPlain = 5,
    DeepLoop = 6,
    EndlessLoop = 7,
    Marks = 8,
    Variables = 9,
    Event = 10,
    Room = 11,
    Stopped = 12,
}

impl Stage {
    pub fn number(self) -> u32
        ensures { result ≡ stage_number self }
    {
        self as u32
    }
}

#[derive(Clone, Copy, Debug, PartialEq, Eq)]
pub struct Refusal {
    pub stage: Stage,
    pub place: u32,
}

impl Refusal {
    pub fn at(stage: Stage, place: usize) -> Refusal
        requires { place < 2 ^ 32 }
        ensures { refusal_of result ≡ refusal (stage_number stage) place }
    {
        Refusal {
            stage,
            place: place as u32,
        }
    }
}
