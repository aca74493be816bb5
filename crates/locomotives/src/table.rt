// Table 21 of SO 153-34.02.317-2003, and the factors of age and zone.
ghost use Rattle.std.specs.Prelude.{◌≡◌, ◌≤◌};
ghost use Rattle.sums.specs.Fraction.{parts_of};
ghost use Rattle.locomotives.specs.Rules.{age_factor, zone_factor};
ghost use Rattle.locomotives.specs.Parts.{hourly_of};

use super::rule::SUBSTANCES;
use super::sound::Sound;
use locomotive_fields::MODES;

// A model's rates in thousandths of a kilogram per hour: of CO, NO2 and soot, each in the five modes.
pub(crate) type Rates = [[u32; MODES]; SUBSTANCES];

// Table 21.
const TGM6: Rates = [
    [840, 920, 1_360, 2_090, 4_130],
    [4_110, 9_860, 11_370, 13_040, 15_210],
    [20, 60, 180, 290, 380],
];

const TGM4: Rates = [
    [640, 750, 930, 1_280, 2_630],
    [1_500, 2_990, 5_240, 6_000, 7_020],
    [10, 60, 170, 220, 230],
];

const TGM3: Rates = [
    [540, 580, 910, 1_340, 2_660],
    [2_060, 4_010, 7_220, 8_240, 9_210],
    [10, 30, 130, 150, 260],
];

const TU4: Rates = [
    [170, 220, 280, 390, 780],
    [450, 880, 1_540, 1_750, 2_010],
    [4, 20, 50, 60, 70],
];

impl Sound {
    // The model's rates. The compiler keeps what a `match` chooses from in memory; a table indexed by the model would be built anew for each locomotive. No other
    // model is in range. As a function of any model it would run some 25 instructions more.
    #[tactic(auto, using(crate::proofs::Ranges::ranged), unfolding(crate::specs::Parts::hourly_of, sums::specs::Choice::list_to, sums::specs::Fraction::parts_of))]
    pub(crate) fn rates(&self) -> Rates
        ensures { result ≡ hourly_of self.now.locomotive.model }
    {
        match self.locomotive.model {
            1 => TGM6,
            2 => TGM4,
            3 => TGM3,
            4 => TU4,
            _ => [[0; MODES]; SUBSTANCES],
        }
    }
}

// Tenths.
#[tactic(auto, unfolding(crate::specs::Rules::age_factor, sums::specs::Choice::if_then_else, sums::specs::Fraction::parts_of))]
pub(crate) fn age_factor(old: u8) -> u64
    ensures { (result ≡ parts_of 10 (age_factor old)) × (result ≤ 12) }
{
    if old == 1 { 12 } else { 10 }
}

// Tenths, as the definition has them out of range too. A `match`: three zones are no table of the papers.
#[tactic(auto, unfolding(sums::specs::Fraction::parts_of))]
pub(crate) fn zone_factor(zone: u8) -> u64
    ensures { (result ≡ parts_of 10 (zone_factor zone)) × (result ≤ 12) }
{
    match zone {
        0..=1 => 12,
        2 => 10,
        3 => 8,
        _ => 0,
    }
}
