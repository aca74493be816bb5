// What a locomotive gives of each substance.
ghost use Rattle.std.specs.Prelude.{◌≡◌, ◌≤◌};
ghost use Rattle.locomotive_fields.specs.Fields.{mode_count};
ghost use Rattle.locomotives.specs.Rules.{locomotive_emissions, locomotive_answer};
ghost use Rattle.locomotives.specs.Parts.{all_modes, with_rate, hour_parts, emission_parts};

use super::sound::Sound;
use super::table;
use locomotive_fields::{Locomotive, MODES};
use sums::{AnnualSum, Emission, PeakSum, Reason, Refusal};

// How many emissions a locomotive's answer holds: CO, NO2, soot.
pub const SUBSTANCES: usize = 3;

const CODES: [u16; SUBSTANCES] = [337, 301, 328];

// Kilograms per hour of the modes: by their shares, in millionths, and the greatest of those with a share, in thousandths.
#[derive(Clone, Copy)]
pub(crate) struct Modes {
    pub(crate) mean: u64,
    pub(crate) greatest: u64,
}

// One mode more, that has a share: its rate of one substance. Its caller owes a bound of the sum so far, since no type says of how many
// modes that is.
#[tactic(auto, using(crate::proofs::Modes::larger))]
fn with_rate(m: Modes, rate: u32, share: u16) -> Modes
    requires { m.mean ≤ 1000000000000 }
    ensures { result ≡ with_rate m rate share }
{
    Modes {
        mean: m.mean + u64::from(rate) * u64::from(share),
        greatest: m.greatest.max(u64::from(rate)),
    }
}

// Exact units in a 1,000,000,000,000th of a tonne, and in a 3,600th of a gram per second: 20,000,000 and 200,000,000,000. In a constant only `as` narrows.
const YEAR_UNITS: u32 = (AnnualSum::DENOMINATOR / 1_000_000) as u32;

const PEAK_UNITS: u64 = PeakSum::DENOMINATOR / 36 * 100_000;

// Millionths of a kilogram per hour times thousandths of an hour are 1,000,000,000,000ths of a tonne, the year's; thousandths of a kilogram per hour are 3,600ths of a gram
// per second, and the peak comes in exact units.
#[tactic(auto, using(sums::proofs::Wrapping::words_times))]
fn emission_of(code: u16, year: u64, peak: u64) -> Emission
    ensures { result ≡ emission_parts code year peak }
{
    Emission {
        code,
        annual: AnnualSum::of(year).times(YEAR_UNITS),
        peak: PeakSum::of(peak),
    }
}

impl Sound {
    // The hours by age and zone, 0.7 of them, in thousandths of an hour.
    #[tactic(auto, unfolding(crate::specs::Parts::hour_parts))]
    fn hours(&self) -> u64
        ensures { (result ≡ hour_parts self.now.locomotive) × (result ≤ 66059280) }
    {
        let l = &self.locomotive;
        u64::from(l.hours) * table::age_factor(l.old) * table::zone_factor(l.zone) * 7
    }

    // A mode without a share adds nothing. The three substances are written out, here and in `emissions`: a loop over them ran 65 to 100 instructions more for each
    // locomotive.
    #[tactic(auto, using(crate::proofs::Modes::room), unfolding(crate::specs::Parts::all_modes, crate::specs::Parts::mean_parts, crate::specs::Parts::greatest_parts, sums::specs::Choice::sum_to, sums::specs::Choice::list_to))]
    fn modes(&self) -> [Modes; SUBSTANCES]
        ensures { result ≡ all_modes self.now.locomotive mode_count }
    {
        let rates = self.rates();
        let none = Modes {
            mean: 0,
            greatest: 0,
        };
        let mut m = [none; SUBSTANCES];
        // By the mode's number: the rates stand by substance.
        for k in 0..MODES {
            let share = self.locomotive.shares[k];
            if share != 0 {
                // A name of its own, since the borrow checker does not cover an array that a call's result is laid in.
                let more = [
                    with_rate(m[0], rates[0][k], share),
                    with_rate(m[1], rates[1][k], share),
                    with_rate(m[2], rates[2][k], share),
                ];
                m = more;
            }
        }
        m
    }

    #[tactic(auto, using(crate::proofs::Bounds::greatest_most, crate::proofs::Bounds::mean_most, crate::proofs::Modes::emission_summed), unfolding(crate::specs::Rules::locomotive_emissions, crate::specs::Parts::all_modes, sums::specs::Choice::list_to))]
    fn emissions(&self) -> [Emission; SUBSTANCES]
        ensures { result ≡ locomotive_emissions self.now.locomotive }
    {
        let hours = self.hours();
        let modes = self.modes();
        [
            emission_of(
                CODES[0],
                modes[0].mean * hours,
                modes[0].greatest * PEAK_UNITS,
            ),
            emission_of(
                CODES[1],
                modes[1].mean * hours,
                modes[1].greatest * PEAK_UNITS,
            ),
            emission_of(
                CODES[2],
                modes[2].mean * hours,
                modes[2].greatest * PEAK_UNITS,
            ),
        ]
    }
}

#[tactic(auto, unfolding(crate::specs::Rules::locomotive_answer, sums::specs::Choice::if_then_else))]
pub fn locomotive_emissions(l: Locomotive) -> Result<[Emission; SUBSTANCES], Refusal>
    ensures { result ≡ locomotive_answer l }
{
    if !locomotive_fields::locomotive_in_range(l) {
        return Err(Refusal::of_source(Reason::OutOfRange));
    }
    if !locomotive_fields::shares_add_up(l) {
        return Err(Refusal::of_source(Reason::Shares));
    }
    let sound = Sound { locomotive: l };
    Ok(sound.emissions())
}
