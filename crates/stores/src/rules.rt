// What a handling, a standing and an aspiration record gives to the code of its dust.
ghost use Rattle.std.specs.Prelude.{◌≡◌, ◌*◌, ◌≤◌};
ghost use Rattle.sums.specs.Figures.{annual_of, peak_of};
ghost use Rattle.stores.specs.Rules.{handling_answer, standing_answer, aspiration_answer};
ghost use Rattle.stores.specs.Parts.{exposure_parts, bulk_units, bulk_year_units, aspiration_units, aspiration_hour_units, emission_of};

use super::tables;
use store_records::{Aspiration, Bulk, Handling, Standing};
use sums::{AnnualSum, Emission, PeakSum, Reason, Refusal};

// K3 K4 K5 K7, in ten-millionths.
#[tactic(auto, using(crate::proofs::Bounds::exposure_most), unfolding(crate::specs::Parts::exposure_parts))]
fn exposure(b: Bulk) -> u64
    ensures { (result ≡ exposure_parts b) × (result ≤ 23000000) }
{
    tables::k3(b.wind) * tables::k4(b.openness) * tables::k5(b.moisture) * tables::k7(b.grain)
}

// Exact units in a 10,000,000,000,000,000th of a tonne: 2,000. In a constant only `as` narrows; here and below the quotient fits.
const MASS_UNITS: u32 = (AnnualSum::DENOMINATOR / 10_000_000_000) as u32;

// Of a 6,000,000,000,000th of a gram per second, handled or standing, the exact units of the peak, 120, and of the year: 31.536 times 0.7 of it is 36,792 times a
// 10,000,000,000,000,000th of a tonne.
const BULK_UNITS: u32 = (PeakSum::DENOMINATOR / 600_000) as u32;

const BULK_YEAR_UNITS: u32 = 36_792 * MASS_UNITS;

// Of a 10,000,000,000th of a gram per second, aspirated, those of the peak, 72,000, and of an hour: 0.0036 of it is 3,600 times a 10,000,000,000,000,000th of a tonne.
const ASPIRATION_UNITS: u32 = (PeakSum::DENOMINATOR / 1_000) as u32;

const ASPIRATION_HOUR_UNITS: u32 = 3_600 * MASS_UNITS;

// Of a peak that has so many 6,000,000,000,000ths of a gram per second. Two functions, since a year of handling or standing has no hours.
#[tactic(auto, using(sums::proofs::Wrapping::words_times))]
fn bulk_emission(dust: u8, parts: u64) -> Emission
    ensures { result ≡ emission_of dust (annual_of (parts * bulk_year_units)) (peak_of (parts * bulk_units)) }
{
    Emission {
        code: tables::code_of(dust),
        annual: AnnualSum::of(parts).times(BULK_YEAR_UNITS),
        peak: PeakSum::of(parts).times(BULK_UNITS),
    }
}

// Of one that has so many 10,000,000,000ths.
#[tactic(auto, using(sums::proofs::Wrapping::words_times))]
fn aspirated_emission(dust: u8, parts: u64, hours: u16) -> Emission
    ensures { result ≡ emission_of dust (annual_of (parts * hours * aspiration_hour_units)) (peak_of (parts * aspiration_units)) }
{
    Emission {
        code: tables::code_of(dust),
        annual: AnnualSum::of(parts)
            .times(u32::from(hours))
            .times(ASPIRATION_HOUR_UNITS),
        peak: PeakSum::of(parts).times(ASPIRATION_UNITS),
    }
}

// A function for each kind of record: a trait over the three would be longer than they are. The range keeps a record's products in 64 bits, so they stand
// behind its test and in no function of their own, which would owe the range.
#[tactic(auto, using(crate::proofs::Paper::handling_summed), unfolding(crate::specs::Parts::handling_parts, crate::specs::Rules::handling_answer, sums::specs::Choice::if_then_else))]
pub fn handling_emission(h: Handling) -> Result<Emission, Refusal>
    ensures { result ≡ handling_answer h }
{
    if !store_records::handling_in_range(h) {
        return Err(Refusal::of_source(Reason::OutOfRange));
    }
    let b = h.bulk;
    let parts = 5
        * tables::k1(b.material)
        * tables::k2(b.material)
        * exposure(b)
        * tables::drop_factor(h.drop)
        * u64::from(b.amount);
    Ok(bulk_emission(b.dust, parts))
}

#[tactic(auto, using(crate::proofs::Paper::standing_summed), unfolding(crate::specs::Parts::standing_parts, crate::specs::Rules::standing_answer, sums::specs::Choice::if_then_else))]
pub fn standing_emission(s: Standing) -> Result<Emission, Refusal>
    ensures { result ≡ standing_answer s }
{
    if !store_records::standing_in_range(s) {
        return Err(Refusal::of_source(Reason::OutOfRange));
    }
    let b = s.bulk;
    let parts = 6 * exposure(b) * tables::q(b.material) * tables::k6(s.k6) * u64::from(b.amount);
    Ok(bulk_emission(b.dust, parts))
}

#[tactic(auto, using(crate::proofs::Ranges::aspiration, crate::proofs::Paper::aspiration_summed), unfolding(crate::specs::Parts::aspiration_parts, crate::specs::Rules::aspiration_answer, sums::specs::Choice::if_then_else))]
pub fn aspiration_emission(a: Aspiration) -> Result<Emission, Refusal>
    ensures { result ≡ aspiration_answer a }
{
    if !store_records::aspiration_in_range(a) {
        return Err(Refusal::of_source(Reason::OutOfRange));
    }
    let parts = u64::from(a.concentration) * u64::from(a.flow) * u64::from(10_000 - a.capture);
    Ok(aspirated_emission(a.dust, parts, a.hours))
}
