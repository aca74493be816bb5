// What a vehicle group gives of a pollutant, from its year and its coldest month.
ghost use Rattle.std.specs.Prelude.{◌≡◌, ◌*◌, ◌≤◌};
ghost use Rattle.sums.specs.Figures.{annual_of, peak_of};
ghost use Rattle.warmups.specs.Parts.{ConditionsInRange, conditions_in};
ghost use Rattle.vehicles.specs.Parts.{ActivityInRange, activity_of, year_units, peak_units, year_parts, out_parts};

use super::activity::Activity;
use super::sound::{Pollutant, Sound};
use super::{arithmetic, trip};
use sums::{AnnualSum, PeakSum};
use warmups::{Climate, Conditions};

// A group in a climate: what one of its vehicles does in the year, and what its coldest month decides.
#[derive(Clone, Copy)]
pub(crate) struct Year {
    pub(crate) sound: Sound,
    pub(crate) activity: Activity,
    pub(crate) coldest: Conditions,
    ghost activity_ranged: { ActivityInRange activity },
    ghost coldest_ranged: { ConditionsInRange coldest },
}

// Exact units in a 200,000,000,000,000,000th of a tonne, and in a 7,200,000,000,000th of a gram per second: 100 and 100. In a
// constant only `as` narrows.
const YEAR_UNITS: u32 = (AnnualSum::DENOMINATOR / 200_000_000_000) as u32;

const PEAK_UNITS: u64 = PeakSum::DENOMINATOR / 720_000;

impl Year {
    pub(crate) fn of(sound: Sound, c: Climate) -> Self
        ensures { (result.sound ≡ sound) × (result.activity ≡ activity_of sound.times sound.group c.bands) × (result.coldest ≡ conditions_in sound.times sound.group c.coldest) }
    {
        Self {
            sound,
            activity: sound.activity(c.bands),
            coldest: warmups::conditions_in(sound.times, sound.group, c.coldest),
        }
    }

    // A year of one vehicle, in 2,000,000,000ths of a gram.
    #[tactic(auto, using(crate::proofs::Periods::warmup_parts_lem, crate::proofs::Periods::run_parts_lem, crate::proofs::Periods::idle_parts, crate::proofs::Bounds::year_most), unfolding(crate::specs::Parts::year_parts, sums::specs::Choice::sum_to))]
    fn mass(&self, p: &Pollutant) -> u64
        ensures { (result ≡ year_parts self.now.sound.group p.now.coefficients p.now.control self.now.activity) × (result ≤ 8928000000000000) }
    {
        let k = p.coefficients;
        let a = self.activity;
        trip::mass_of(
            self.sound.group.neutraliser,
            p.control,
            arithmetic::over_periods(k.warmup, a.warmup),
            arithmetic::over_periods(k.run, a.run),
            arithmetic::times(k.idle, a.idle),
        )
    }

    // 2,000,000,000ths of a gram times a percentage are 200,000,000,000,000,000ths of a tonne.
    #[tactic(auto, using(sums::proofs::Wrapping::words_times))]
    pub(crate) fn annual(&self, p: &Pollutant) -> AnnualSum
        ensures { result ≡ annual_of (year_parts self.now.sound.group p.now.coefficients p.now.control self.now.activity * self.now.sound.group.share * (self.now.sound.group.vehicles * year_units)) }
    {
        let g = &self.sound.group;
        AnnualSum::of(self.mass(p) * u64::from(g.share)).times(u32::from(g.vehicles) * YEAR_UNITS)
    }

    // 2,000,000,000ths of a gram over 3,600 seconds are 7,200,000,000,000ths of a gram per second. The product fits 64 bits, so a peak is one word.
    pub(crate) fn peak(&self, p: &Pollutant) -> PeakSum
        ensures { result ≡ peak_of (out_parts self.now.sound.group p.now.coefficients p.now.control self.now.coldest * self.now.sound.group.leaving * peak_units) }
    {
        PeakSum::of(self.outward(p) * u64::from(self.sound.group.leaving) * PEAK_UNITS)
    }
}
