// What the check, the query and the remaining program answer to C, which reads a refusal as its number, 0 for none.
ghost use Rattle.std.specs.Prelude.{◌≡◌};
ghost use Rattle.acceptance.specs.Verdicts.{verdict_of};
ghost use Rattle.landarbeso.specs.Numbers.{numbers_of, flat_asked, flat_written};

use acceptance::Announced;
use marks::Asked;
use table::Refusal;

#[repr(C)]
#[derive(Clone, Copy, Debug, PartialEq, Eq)]
pub struct CheckedNumbers {
    pub refused: u32,
    pub place: u32,
    pub emitted: u32,
    pub highest: u32,
    pub steps: u32,
    pub outputs: u32,
}

impl From<Result<Announced, Refusal>> for CheckedNumbers {
    ghost from_gives = { λ checked numbers. numbers ≡ numbers_of (verdict_of checked) };

    fn from(checked: Result<Announced, Refusal>) -> CheckedNumbers {
        match checked {
            Ok(announced) => CheckedNumbers {
                refused: 0,
                place: 0,
                emitted: announced.emitted,
                highest: announced.highest,
                steps: announced.steps,
                outputs: announced.outputs,
            },
            Err(refusal) => CheckedNumbers {
                refused: refusal.stage.number(),
                place: refusal.place,
                emitted: 0,
                highest: 0,
                steps: 0,
                outputs: 0,
            },
        }
    }
}

#[repr(C)]
#[derive(Clone, Copy, Debug, PartialEq, Eq)]
pub struct Queried {
    pub refused: u32,
    pub place: u32,
    pub number: u32,
    pub lowest: u32,
}

impl From<Result<Asked, Refusal>> for Queried {
    ghost from_gives = { λ asked queried. queried ≡ flat_asked asked };

    fn from(asked: Result<Asked, Refusal>) -> Queried {
        match asked {
            Ok(asked) => Queried {
                refused: 0,
                place: 0,
                number: asked.number,
                lowest: asked.lowest,
            },
            Err(refusal) => Queried {
                refused: refusal.stage.number(),
                place: refusal.place,
                number: 0,
                lowest: 0,
            },
        }
    }
}

#[repr(C)]
#[derive(Clone, Copy, Debug, PartialEq, Eq)]
pub struct Written {
    pub refused: u32,
    pub place: u32,
    pub records: u32,
}

impl From<Result<u32, Refusal>> for Written {
    ghost from_gives = { λ records written. written ≡ flat_written records };

    fn from(records: Result<u32, Refusal>) -> Written {
        match records {
            Ok(records) => Written {
                refused: 0,
                place: 0,
                records,
            },
            Err(refusal) => Written {
                refused: refusal.stage.number(),
                place: refusal.place,
                records: 0,
            },
        }
    }
}
