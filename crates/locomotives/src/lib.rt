// The source rule of shunting locomotives.
#![tactic(auto)]

pub mod rule;
mod sound;
mod table;

pub use rule::{SUBSTANCES, locomotive_emissions};
