// A running program, on the states of crate walks: what has begun runs on, in a round of pushes and pops.
#![tactic(auto)]

mod climb;
mod fork;
mod held;
mod part;
mod path;
mod rest;
mod resume;
mod round;
mod waiting;

pub use round::{begin, react};

// What a round left: has it come to level 0, as the theory's round says and no call asks; the internal events emitted; the highest level.
#[derive(Clone, Copy, Debug, PartialEq, Eq)]
pub struct Rounded {
    pub grounded: bool,
    pub emitted: u64,
    pub highest: u32,
}
