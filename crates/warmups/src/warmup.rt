// Warm-up minutes, heated stands, and timed warm-ups.
ghost use Rattle.std.specs.Prelude.{◌≡◌, ◌<◌, get_or};
ghost use Rattle.warmups.specs.Warmup.{times_of, untimed_in, tenths_in};
ghost use Rattle.warmups.specs.Parts.{tenths, number_of, band_period, period_in, conditions_in};

use vehicle_factors::{BANDS, Factors};
use vehicle_fields::{Group, Minutes};

// The periods of the year, each of which has coefficients of its own.
#[derive(Clone, Copy)]
pub enum Period {
    Warm,
    Transitional,
    Cold,
}

impl Period {
    // Its place in what is given for each period: its discriminant, which `as` alone gives. A method and no `From`, since the name says what the number is for.
    pub fn place(self) -> usize
        ensures { (result ≡ number_of self) × (result < 3) }
    {
        self as usize
    }
}

// What a month's band decides: the period whose coefficients count, and the warm-up minutes.
#[derive(Clone, Copy)]
pub struct Conditions {
    pub period: Period,
    pub minutes: Minutes,
}

// The row of a category, which stays a number, since a public function takes any: another than 1 and 2 has the bus's.
#[tactic(auto, unfolding(crate::specs::Warmup::times_of, sums::specs::Choice::if_then_else))]
pub fn times_of(f: Factors, category: u8) -> [u16; BANDS]
    ensures { result ≡ times_of f category }
{
    match category {
        1 => f.car,
        2 => f.truck,
        _ => f.bus,
    }
}

// The time at a band; 0 past the last, which no temperature has: the definition gives 0 there, and an `Option` would be taken apart by the one caller.
fn time_at(times: [u16; BANDS], band: u8) -> u32
    ensures { result ≡ get_or times band 0 }
{
    times.get(usize::from(band)).map_or(0, |t| u32::from(*t))
}

// Times and group are two parameters, here and below: the type that has both, `Sound`, is of `vehicles` and holds bounds, which nothing here asks.
#[tactic(auto, unfolding(crate::specs::Warmup::untimed_in, sums::specs::Choice::if_then_else))]
fn untimed_in(times: [u16; BANDS], g: Group, band: u8) -> Minutes
    ensures { result ≡ tenths (untimed_in times g band) }
{
    if g.heated {
        Minutes(15)
    } else {
        Minutes(time_at(times, band))
    }
}

#[tactic(auto, unfolding(crate::specs::Warmup::tenths_in, sums::specs::Choice::if_then_else))]
fn minutes_in(times: [u16; BANDS], g: Group, band: u8) -> Minutes
    ensures { result ≡ tenths (tenths_in times g band) }
{
    let timed = g.timed;
    if 0 < timed.0 {
        timed
    } else {
        untimed_in(times, g, band)
    }
}

fn band_period(band: u8) -> Period
    ensures { result ≡ band_period band }
{
    match band {
        0 => Period::Warm,
        1 => Period::Transitional,
        _ => Period::Cold,
    }
}

#[tactic(auto, unfolding(crate::specs::Parts::period_in, sums::specs::Choice::if_then_else))]
fn period_in(g: Group, band: u8) -> Period
    ensures { result ≡ period_in g band }
{
    if g.heated {
        return Period::Warm;
    }
    band_period(band)
}

#[tactic(auto, unfolding(crate::specs::Parts::conditions_in))]
pub fn conditions_in(times: [u16; BANDS], g: Group, band: u8) -> Conditions
    ensures { result ≡ conditions_in times g band }
{
    Conditions {
        period: period_in(g, band),
        minutes: minutes_in(times, g, band),
    }
}
