// The fields of vehicle groups: their types and units, their ranges, and the soot and lead that must be zero.
#![tactic(auto)]

pub mod group;
pub mod input;
pub mod temperature;
pub mod units;

pub use group::{
    Coefficients, Distances, Group, Neutraliser, POLLUTANTS, coefficients_in_range, group_in_range,
};
pub use input::{source_in_range, zero_where_due};
pub use temperature::temperatures_in_range;
pub use units::{Metres, Minutes, PerKilometre, PerMinute};
