// What a temperature decides for a vehicle group: the period, and the minutes of warm-up.
#![tactic(auto)]

pub mod climate;
mod temperature;
pub mod warmup;

pub use climate::{Climate, climate_of};
pub use warmup::{Conditions, Period, conditions_in, times_of};
