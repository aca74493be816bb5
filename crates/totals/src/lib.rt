// Exact sums by substance code, of a year's masses and of peaks, and their figures.
#![tactic(auto)]

ghost use Rattle.std.specs.Prelude.{◌≡◌};
ghost use Rattle.totals.specs.Totals.{no_sums, plus_in, plus_to_in, figures_in};

pub mod lent;

pub use lent::{add, add_all, none, rounded};
use slot_file::COUNT;
use sums::{AnnualSum, Emission, PeakSum};

// Millionths of a tonne, and ten-millionths of a gram per second: an answer without its counts, which the sums do not know.
#[derive(Clone, Copy)]
pub struct Figures {
    pub annual: [u64; COUNT],
    pub peak: [u64; COUNT],
}

// By the listing's codes, in its order: two rows, as an answer has them.
#[derive(Clone, Copy)]
pub struct Totals {
    pub annual: [AnnualSum; COUNT],
    pub peak: [PeakSum; COUNT],
}

impl Totals {
    // The sums of nothing.
    pub fn none() -> Self
        ensures { result ≡ no_sums }
    {
        Self {
            annual: [AnnualSum::zero(); COUNT],
            peak: [PeakSum::zero(); COUNT],
        }
    }

    // Adds to the sums of the emission's code; a code that the listing does not have adds to none.
    #[tactic(auto, unfolding(crate::specs::Totals::plus_in))]
    pub fn add(&mut self, e: Emission)
        ensures { self.new ≡ plus_in self.old e }
    {
        if let Some(place) = slot_file::place_of(e.code) {
            self.annual[place] = self.annual[place].plus(e.annual);
            self.peak[place] = self.peak[place].plus(e.peak);
        }
    }

    // The emissions of a source.
    #[tactic(auto, unfolding(crate::specs::Totals::plus_to_in, sums::specs::Figures::words_of))]
    pub fn add_all<const N: usize>(&mut self, emissions: [Emission; N])
        ensures { self.new ≡ plus_to_in self.old emissions.entry N }
    {
        for e in emissions {
            self.add(e);
        }
    }

    // Each sum, rounded.
    pub fn figures(&self) -> Figures
        ensures { result ≡ figures_in self.now }
    {
        let annual = self.annual.map(AnnualSum::rounded);
        let peak = self.peak.map(PeakSum::rounded);
        Figures { annual, peak }
    }
}
