// The memory of a running program: numbers of 32 signed bits, and what kinds 1 to 7 do to variables, outputs and counts.
#![tactic(auto)]

mod act;
mod effects;
mod number;

pub use act::{Act, NoAct};
pub use effects::Memory;
pub use number::{bits_of, difference, is_less, number_of, quotient, signed, sum};
