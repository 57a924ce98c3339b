// The kinds of records, by name. Kinds that differ in a flag are one case with the flag, as in the rules.
ghost use Rattle.std.specs.Prelude.{◌≡◌};
ghost use Rattle.table.specs.Named.{ReadsKind, kind_number, children};

use memory::Act;

// Where an event comes from.
#[derive(Clone, Copy, Debug, PartialEq, Eq)]
pub enum Source {
    Input,
    Internal,
}

#[derive(Clone, Copy, Debug, PartialEq, Eq)]
pub enum Par {
    And,
    Or,
}

#[derive(Clone, Copy, Debug, PartialEq, Eq)]
pub enum Kind {
    Nothing,
    Act(Act),
    Await(Source),
    Emit,
    Break,
    If,
    Sequence,
    Loop,
    Every(Source),
    Par(Par),
    Fin,
}

// A number over 19, which no kind has.
#[derive(Clone, Copy, Debug, PartialEq, Eq)]
pub struct NoKind(pub u8);

impl TryFrom<u8> for Kind {
    type Error = NoKind;

    ghost try_from_gives = { ReadsKind };

    fn try_from(number: u8) -> Result<Self, NoKind> {
        match number {
            0 => Ok(Kind::Nothing),
            1 => Ok(Kind::Act(Act::Assign)),
            2 => Ok(Kind::Act(Act::Increase)),
            3 => Ok(Kind::Act(Act::Copy)),
            4 => Ok(Kind::Act(Act::Subtract)),
            5 => Ok(Kind::Act(Act::Compare)),
            6 => Ok(Kind::Act(Act::Divide)),
            7 => Ok(Kind::Act(Act::Output)),
            8 => Ok(Kind::Await(Source::Input)),
            9 => Ok(Kind::Await(Source::Internal)),
            10 => Ok(Kind::Emit),
            11 => Ok(Kind::Break),
            12 => Ok(Kind::If),
            13 => Ok(Kind::Sequence),
            14 => Ok(Kind::Loop),
            15 => Ok(Kind::Every(Source::Input)),
            16 => Ok(Kind::Every(Source::Internal)),
            17 => Ok(Kind::Par(Par::And)),
            18 => Ok(Kind::Par(Par::Or)),
            19 => Ok(Kind::Fin),
            _ => Err(NoKind(number)),
        }
    }
}

// The number of a kind.
impl From<Kind> for u8 {
    ghost from_gives = { λ kind number. number ≡ kind_number kind };

    fn from(kind: Kind) -> Self {
        match kind {
            Kind::Nothing => 0,
            Kind::Act(act) => 1 + act as u8,
            Kind::Await(Source::Input) => 8,
            Kind::Await(Source::Internal) => 9,
            Kind::Emit => 10,
            Kind::Break => 11,
            Kind::If => 12,
            Kind::Sequence => 13,
            Kind::Loop => 14,
            Kind::Every(Source::Input) => 15,
            Kind::Every(Source::Internal) => 16,
            Kind::Par(Par::And) => 17,
            Kind::Par(Par::Or) => 18,
            Kind::Fin => 19,
        }
    }
}

impl Kind {
    pub fn children(self) -> usize
        ensures { result ≡ children self }
    {
        match self {
            Kind::If | Kind::Sequence | Kind::Par(_) => 2,
            Kind::Loop | Kind::Every(_) | Kind::Fin => 1,
            _ => 0,
        }
    }
}
