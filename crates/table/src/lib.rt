// What a record of a table says, and the constructs of a table whose shape is right; events and outputs, which are laid out as records.
#![tactic(auto)]

mod construct;
mod entry;
mod kind;
mod record;
mod refusal;

pub use construct::Construct;
pub use entry::{Entry, entry_at};
pub use kind::{Kind, NoKind, Par, Source};
pub use record::{
    bits_at, children_at, children_of, kind_at, name_at, number_at, read_kind, second_at, span_at,
};
pub use refusal::{Refusal, Stage};
