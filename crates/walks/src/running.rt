// What a running program changes, and how a walk of it ends.
use memory::Memory;
use rules::Limits;

// One state for each record, and the memory. A state is a number with a name below, not an enum: theory's theorem react-on-states speaks of lists of these numbers.
// The room for outputs is lent beside it: a `&mut` in here would need a clause on its ghost name in every contract.
#[derive(Drop)]
pub struct Running {
    pub states: [u32; Limits::RECORDS],
    pub memory: Memory,
}

impl Running {
    // Nothing lives, all variables are 0, and nothing is counted.
    pub const IDLING: Running = Running {
        states: [Self::IDLE; Limits::RECORDS],
        memory: Memory {
            vars: [0; Limits::VARIABLES],
            steps: 0,
            outputs: 0,
        },
    };

    // The state of a record where nothing lives.
    pub const IDLE: u32 = 0;

    // Of one that waits.
    pub const WAITING: u32 = 1;

    // Of one whose event has come.
    pub const WOKEN: u32 = 2;

    // Of one that waits for its turn at level 0; each level adds one.
    pub const TURN: u32 = 3;
}

// How a walk ended: nothing lived there; it has ended, broken, is blocked, or has an event pending.
#[derive(Clone, Copy, Debug, PartialEq, Eq)]
pub enum How {
    Idle,
    Ended,
    Broke,
    Waiting,
    Ringing(usize),
}
