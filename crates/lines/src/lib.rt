// What the runner prints, a type for each line, the same lines in a lent buffer, and the events and outputs that it reads.
#![tactic(auto)]

mod buffer;
mod filling;
mod lines;

pub use buffer::{LINE_BYTES, call_line, out_line, refusal_line};
pub use lines::{CallLine, OutLine, RefusalLine};
pub use table::{Entry, entry_at};
