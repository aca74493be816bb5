// What the slots of a slot file hold: slot 0, groups, coefficients, store records and locomotives, read from 64 bytes each.
#![tactic(auto)]

pub mod coefficients;
pub mod group;
pub mod header;
pub mod locomotive;
mod numbers;
pub mod slot;
pub mod store;

pub use coefficients::{CoefficientSlot, read_coefficients};
pub use group::{GroupSlot, read_group};
pub use header::{Header, Heads, read_header};
pub use locomotive::{LocomotiveSlot, read_locomotive};
pub use slot::{RefusedSlot, SLOT_SIZE, next_of};
pub use store::{StoreRecord, read_store};
