// What the year's temperatures decide whatever the group.
ghost use Rattle.std.specs.Prelude.{◌≡◌};
ghost use Rattle.warmups.specs.Parts.{climate_of};

use super::temperature;

// The band of each month, and that of the lowest temperature, as `climate_of` makes them. A band is a number and no enum: it looks up the minutes of a row, and seven names
// would say no more. One past the last has no minutes; a rule that is asked by temperatures tests those, and never meets one.
#[derive(Clone, Copy)]
pub struct Climate {
    pub bands: [u8; 12],
    pub coldest: u8,
}

pub fn climate_of(ts: [i16; 12]) -> Climate
    ensures { result ≡ climate_of ts }
{
    Climate {
        bands: ts.map(temperature::warmup_band),
        coldest: temperature::warmup_band(temperature::lowest(ts)),
    }
}
