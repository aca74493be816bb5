// The fields of shunting locomotives, their ranges, and whether the shares are the whole of the time.
#![tactic(auto)]

pub mod fields;

pub use fields::{Locomotive, MODES, locomotive_in_range, shares_add_up};
