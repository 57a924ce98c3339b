// The definitions of the rules stand in specs/; the limits, for code, in limits.rt.
#![tactic(auto)]

mod limits;

pub use limits::{Constants, Limits};
