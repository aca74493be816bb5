// The source rule of vehicle groups.
#![tactic(auto)]

mod activity;
mod arithmetic;
mod control;
pub mod rule;
mod sound;
mod trip;
mod year;

pub use rule::{EMISSIONS, emissions_in_climate, group_emissions};
