// Vehicle factors, control percents and warm-up times, as one value; and the methodology's tables as such a value.
#![tactic(auto)]

ghost use Rattle.std.specs.Prelude.{◌≡◌};
ghost use Rattle.vehicle_factors.specs.Factors.{standard_factors};

use vehicle_fields::POLLUTANTS;

// How many bands of temperature the table of warm-up times has.
pub const BANDS: usize = 7;

// Control factors in percent, by pollutant, of each fuel; warm-up times in tenths of a minute, by band from the warmest on, of each category.
#[derive(Clone, Copy)]
pub struct Factors {
    pub petrol: [u8; POLLUTANTS],
    pub diesel: [u8; POLLUTANTS],
    pub car: [u16; BANDS],
    pub truck: [u16; BANDS],
    pub bus: [u16; BANDS],
}

// Table 10.
const PETROL: [u8; POLLUTANTS] = [80, 90, 100, 100, 95, 95];

const DIESEL: [u8; POLLUTANTS] = [90, 90, 100, 80, 95, 100];

// Table 9.
const CAR: [u16; BANDS] = [30, 40, 100, 150, 150, 200, 200];

const TRUCK: [u16; BANDS] = [40, 60, 120, 200, 250, 300, 300];

#[tactic(auto, unfolding(crate::specs::Factors::standard_factors, sums::specs::Fraction::parts_of))]
pub fn standard_factors() -> Factors
    ensures { result ≡ standard_factors }
{
    Factors {
        petrol: PETROL,
        diesel: DIESEL,
        car: CAR,
        truck: TRUCK,
        bus: TRUCK,
    }
}
