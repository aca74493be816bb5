// What goes by the fuel: control factors, and codes.
ghost use Rattle.std.specs.Prelude.{◌≡◌, eqb};
ghost use Rattle.sums.specs.Choice.{if_then_else, list_to};
ghost use Rattle.vehicle_fields.specs.Fields.{pollutant_count};
ghost use Rattle.vehicles.specs.Rules.{percent_of, pollutant_code};

use vehicle_factors::Factors;
use vehicle_fields::{Group, POLLUTANTS};

const UNCONTROLLED: [u8; POLLUTANTS] = [100; POLLUTANTS];

const PETROL_CODES: [u16; POLLUTANTS] = [337, 2704, 301, 328, 330, 184];

const DIESEL_CODES: [u16; POLLUTANTS] = [337, 2754, 301, 328, 330, 184];

// Of what petrol has and what diesel has, the fuel's. A fuel stays a number, as a group has it, since the rule's public functions take any and refuse it.
#[tactic(auto, unfolding(sums::specs::Choice::if_then_else))]
fn of_fuel<T: Copy>(fuel: u8, petrol: T, diesel: T) -> T
    ensures { result ≡ if_then_else (eqb fuel 1) petrol diesel }
{
    if fuel == 1 { petrol } else { diesel }
}

// In percent, each pollutant's.
#[tactic(auto, unfolding(crate::specs::Rules::percent_of, sums::specs::Choice::if_then_else, sums::specs::Choice::list_to))]
pub(crate) fn controls_of<'a>(f: &'a Factors, g: &Group) -> &'a [u8; POLLUTANTS]
    ensures { result.now ≡ list_to pollutant_count (percent_of f.now g.now) }
{
    if g.controlled {
        of_fuel(g.fuel, &f.petrol, &f.diesel)
    } else {
        &UNCONTROLLED
    }
}

#[tactic(auto, unfolding(crate::specs::Rules::pollutant_code, sums::specs::Choice::if_then_else, sums::specs::Choice::list_to))]
pub(crate) fn codes_of(fuel: u8) -> &'static [u16; POLLUTANTS]
    ensures { result.now ≡ list_to pollutant_count (pollutant_code fuel) }
{
    of_fuel(fuel, &PETROL_CODES, &DIESEL_CODES)
}
