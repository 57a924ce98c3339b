// The calls of document 01, for every input: start, react and run_list, without the running totals. Table, marks, variables, events and room are parameters of their
// own, as C lends them.
#![tactic(auto)]

mod hold;
mod list;
mod one;
mod stages;

pub use list::run_list;
pub use one::{react, start};
pub use stages::{first_bad, marks_stages};
use table::Refusal;

// What a call that is not refused says: is no mark set any more, and the counts.
#[derive(Clone, Copy, Debug, PartialEq, Eq)]
pub struct Done {
    pub finished: bool,
    pub highest: u32,
    pub steps: u64,
    pub emitted: u64,
    pub outputs: u64,
}

// What a list came to: the counts of the events that were taken, how many those are, and refusal 12 at the first that was not.
#[derive(Clone, Copy, Debug, PartialEq, Eq)]
pub struct Listed {
    pub done: Done,
    pub taken: u64,
    pub stopped: Option<Refusal>,
}
