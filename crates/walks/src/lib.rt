// The walks that resume and the round are made of, over one state for each record: idle, waiting, woken or a turn of a level.
#![tactic(auto)]

pub mod clear;
pub mod exec;
mod listeners;
pub mod part;
mod running;
pub mod settle;
pub mod wake;

pub use listeners::Listeners;
pub use part::Reach;
pub use running::{How, Running};
