// A construct, its kind and what stands around it; stages 4 to 7 there.
ghost use Rattle.std.specs.Prelude.{◌≡◌, ◌+◌, ◌≤◌, ◌<◌};
ghost use Rattle.rules.specs.Check.{visits_of, loose_break, not_plain, deep_loop, endless_loop};
ghost use Rattle.rules.specs.Table.{kind_at};
ghost use Rattle.table.specs.Kinds.{children_of};
ghost use Rattle.table.specs.Named.{kind_number, children};

use crate::ending::may_end;
use rules::Limits;
use table::{Construct, Kind};

// So many loops, an every, a fin.
#[derive(Clone, Copy, Debug, PartialEq, Eq, Default)]
pub struct Around {
    pub loops: u8,
    pub in_every: bool,
    pub in_fin: bool,
}

impl Around {
    ghost use Rattle.acceptance.specs.Visits.{around_of, inner};

    // What stands around the children of a construct of this kind.
    #[tactic(auto, unfolding(crate::specs::Visits::inner))]
    pub fn within(self, kind: Kind) -> Around
        requires { self.loops < 255 }
        ensures around { around_of result ≡ inner (kind_number kind) (around_of self) }
        ensures few { result.loops ≤ self.loops + 1 }
    {
        match kind {
            Kind::Loop => Around {
                loops: self.loops + 1,
                ..self
            },
            Kind::Every(_) => Around {
                in_every: true,
                ..self
            },
            Kind::Fin => Around {
                in_fin: true,
                ..self
            },
            _ => self,
        }
    }
}

// What stands around a construct are no more loops than places before it.
#[derive(Clone, Copy)]
pub struct Visit<'a> {
    pub at: Construct<'a>,
    pub kind: Kind,
    pub around: Around,
    pub ghost number: { kind_at at.table.now at.place ≡ kind_number kind },
    pub ghost children: { children_of (kind_at at.table.now at.place) ≡ children kind },
    pub ghost few: { around.loops ≤ at.place },
}

impl<'a> Visit<'a> {
    ghost use Rattle.acceptance.specs.Visits.{visit_of, walk_of, passes, IsFirst, IsSecond};

    pub fn new(at: Construct<'a>, around: Around) -> Visit<'a>
        requires { around.loops ≤ at.place }
        ensures construct { result.at ≡ at.entry }
        ensures around { result.around ≡ around }
    {
        Visit {
            at,
            kind: at.kind(),
            around,
        }
    }

    // A program, with nothing around it.
    pub fn of(program: Construct<'a>) -> Visit<'a>
        requires { program.place ≡ 0 }
        ensures construct { result.at ≡ program.entry }
        ensures walk { walk_of result ≡ visits_of program.entry.table.now }
    {
        Visit::new(program, Around::default())
    }

    // A break with no loop around it.
    pub fn loose_break(self) -> bool
        ensures { result ≡ loose_break (visit_of self.entry) }
    {
        self.kind == Kind::Break && self.around.loops == 0
    }

    // A construct that an every and a fin may not hold.
    pub fn not_plain(self) -> bool
        ensures { result ≡ not_plain (visit_of self.entry) }
    {
        if !self.around.in_every && !self.around.in_fin {
            return false;
        }
        match self.kind {
            Kind::Nothing | Kind::Act(_) | Kind::If | Kind::Sequence => false,
            _ => true,
        }
    }

    // A loop inside eight others.
    pub fn deep_loop(self) -> bool
        ensures { result ≡ deep_loop (visit_of self.entry) }
    {
        self.kind == Kind::Loop && Limits::LOOPS <= usize::from(self.around.loops)
    }

    // A loop whose body may end at once.
    pub fn endless_loop(self) -> bool
        ensures { result ≡ endless_loop (visit_of self.entry) }
    {
        self.kind == Kind::Loop && may_end(self.at.first())
    }

    // None of these, in one look at the kind.
    pub fn passes(self) -> bool
        ensures { result ≡ passes (visit_of self.entry) }
    {
        let confined = self.around.in_every || self.around.in_fin;
        match self.kind {
            Kind::Nothing | Kind::Act(_) | Kind::If | Kind::Sequence => true,
            Kind::Break => !confined && self.around.loops != 0,
            Kind::Loop => !confined && !self.deep_loop() && !self.endless_loop(),
            _ => !confined,
        }
    }

    // The first child, and what stands around it.
    pub fn first(self) -> Visit<'a>
        requires { 1 ≤ children self.kind }
        ensures { IsFirst self.entry result }
    {
        Visit::new(self.at.first(), self.around.within(self.kind))
    }

    pub fn second(self) -> Visit<'a>
        requires { 2 ≤ children self.kind }
        ensures { IsSecond self.entry result }
    {
        Visit::new(self.at.second(), self.around.within(self.kind))
    }
}
