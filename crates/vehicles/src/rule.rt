// What a vehicle group gives of each pollutant.
ghost use Rattle.std.specs.Prelude.{◌≡◌};
ghost use Rattle.vehicles.specs.Rules.{group_answer};
ghost use Rattle.vehicles.specs.Parts.{answer_in};

use super::control;
use super::sound::{Pollutant, Sound};
use super::year::Year;
use sums::{Emission, Reason, Refusal};
use vehicle_fields::{Coefficients, Group, POLLUTANTS};
use warmups::Climate;

// How many emissions a group's answer holds: one for each pollutant.
pub const EMISSIONS: usize = POLLUTANTS;

// In a climate, which many groups share. A group and its coefficients are two parameters, as 01 names them.
#[tactic(auto, unfolding(crate::specs::Parts::answer_in, sums::specs::Choice::if_then_else))]
pub fn emissions_in_climate(
    g: Group,
    c: Climate,
    ks: [Coefficients; POLLUTANTS],
) -> Result<[Emission; EMISSIONS], Refusal>
    ensures { result ≡ answer_in g c ks }
{
    if !vehicle_fields::source_in_range(g, ks) {
        return Err(Refusal::of_source(Reason::OutOfRange));
    }
    if !vehicle_fields::zero_where_due(g, ks) {
        return Err(Refusal::of_source(Reason::SootOrLead));
    }
    let factors = vehicle_factors::standard_factors();
    let sound = Sound {
        group: g,
        times: warmups::times_of(factors, g.category),
    };
    let year = Year::of(sound, c);
    let codes = control::codes_of(g.fuel);
    let controls = control::controls_of(&factors, &g);
    // Not `array::from_fn`, whose promise does not say of each call that what the closure captures is still as it was.
    let mut emissions = [Emission::none(); EMISSIONS];
    for (p, k) in ks.iter().enumerate() {
        let pollutant = Pollutant {
            coefficients: *k,
            control: controls[p],
        };
        emissions[p] = Emission {
            code: codes[p],
            annual: year.annual(&pollutant),
            peak: year.peak(&pollutant),
        };
    }
    Ok(emissions)
}

#[tactic(auto, using(crate::proofs::Ranges::in_range_is, crate::proofs::Paper::answered), unfolding(crate::specs::Rules::group_answer, sums::specs::Choice::if_then_else))]
pub fn group_emissions(
    g: Group,
    ts: [i16; 12],
    ks: [Coefficients; POLLUTANTS],
) -> Result<[Emission; EMISSIONS], Refusal>
    ensures { result ≡ group_answer g ts ks }
{
    if !vehicle_fields::temperatures_in_range(ts) {
        return Err(Refusal::of_source(Reason::OutOfRange));
    }
    emissions_in_climate(g, warmups::climate_of(ts), ks)
}
