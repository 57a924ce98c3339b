// The waiting marks: stage 8, the events that a program at rest awaits, and the remaining program.
#![tactic(auto)]

mod counted;
mod fitting;
mod marked;
mod query;
mod remaining;
mod resting;

// By a table and its marks, as docs/PROMISES.md has these functions; within the crate a cursor holds both.
pub use fitting::marks_refused;
pub use query::{Asked, ask, awaited, lowest_of, number_of};
pub use remaining::{remaining_span, write_remaining};
