// What a record of kinds 1 to 7 does.
ghost use Rattle.memory.specs.Acts.{ReadsAct};

#[derive(Clone, Copy, Debug, PartialEq, Eq)]
pub enum Act {
    Assign,
    Increase,
    Copy,
    Subtract,
    Compare,
    Divide,
    Output,
}

// The number of a kind that does none of this.
#[derive(Clone, Copy, Debug, PartialEq, Eq)]
pub struct NoAct(pub u8);

impl TryFrom<u8> for Act {
    type Error = NoAct;

    ghost try_from_gives = { ReadsAct };

    fn try_from(kind: u8) -> Result<Self, NoAct> {
        match kind {
            1 => Ok(Act::Assign),
            2 => Ok(Act::Increase),
            3 => Ok(Act::Copy),
            4 => Ok(Act::Subtract),
            5 => Ok(Act::Compare),
            6 => Ok(Act::Divide),
            7 => Ok(Act::Output),
            _ => Err(NoAct(kind)),
        }
    }
}
