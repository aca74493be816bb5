// Exact sums of emissions, and what every source rule answers in.
#![tactic(auto)]

pub mod answer;
pub mod mixed;
pub mod sum;
pub mod words;

pub use answer::{Emission, Reason, Refusal};
pub use sum::{Annual, AnnualSum, Peak, PeakSum, Sum, Unit};
