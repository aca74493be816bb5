// The records of bulk stores: the fields of handling, standing and aspiration, and their ranges.
#![tactic(auto)]

pub mod records;

pub use records::{
    Aspiration, Bulk, Handling, Standing, aspiration_in_range, handling_in_range, standing_in_range,
};
