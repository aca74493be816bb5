// The source rules of bulk stores: handling, standing and aspiration.
#![tactic(auto)]

pub mod rules;
mod tables;

pub use rules::{aspiration_emission, handling_emission, standing_emission};
