// The walk over a slot file: its check, and its answer.
#![tactic(auto)]

mod chain;
pub mod file;
mod group_chain;
mod headed;
mod locomotive_chain;
mod marks;
mod reached;
mod rows;
mod state;
mod store_chain;
mod summing;

pub use file::{answer, check};
