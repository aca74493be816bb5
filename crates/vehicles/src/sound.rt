// What has been tested to be in range, as types that hold its bounds: a group with the times it is worked out by, and a pollutant's coefficients and control factor.
ghost use Rattle.std.specs.Prelude.{◌≤◌};
ghost use Rattle.warmups.specs.Parts.{TimesInRange};
ghost use Rattle.vehicles.specs.Parts.{RangedGroup, CoefficientsInRange};

use vehicle_factors::BANDS;
use vehicle_fields::{Coefficients, Group};

// The times are those of its category, which whoever makes one sees to.
#[derive(Clone, Copy)]
pub(crate) struct Sound {
    pub(crate) group: Group,
    pub(crate) times: [u16; BANDS],
    ghost group_ranged: { RangedGroup group },
    ghost times_ranged: { TimesInRange times },
}

// The control factor in percent.
#[derive(Clone, Copy)]
pub(crate) struct Pollutant {
    pub(crate) coefficients: Coefficients,
    pub(crate) control: u8,
    ghost ranged: { CoefficientsInRange coefficients },
    ghost percent: { control ≤ 100 },
}
