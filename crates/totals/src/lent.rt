// The sums of `Totals` as numbers in memory that the caller lends, for a caller that has no structs of ours: a column of sums for the year's masses and one for the peaks,
// a sum for each of the listing's codes in its order, and two words a sum, the low one first. Memory of another length holds no sums.
ghost use Rattle.std.specs.Prelude.{◌≡◌, ◌<◌, length};
ghost use Rattle.sums.specs.Figures.{units_in};
ghost use Rattle.totals.specs.Lent.{sum_count, number_count, no_numbers, words_at, plus_at, plus_in, plus_to_in, totals_of, figures_in};

use super::{Figures, Totals};
use slot_file::COUNT;
use std::array;
use sums::words::Words;
use sums::{AnnualSum, Emission, PeakSum};

// Both columns' sums, the peaks' behind the masses', and two words for each.
const SUMS: usize = 2 * COUNT;

const NUMBERS: usize = 2 * SUMS;

// The sum at a place among both columns'. Here and below the callers have tested once that the memory has all sums, and the places are those of codes.
fn sum_at(totals: &[u64], place: usize) -> Words
    requires { (length totals.now ≡ number_count) × (place < sum_count) }
    ensures { result ≡ words_at totals.now place }
{
    Words {
        high: totals[2 * place + 1],
        low: totals[2 * place],
    }
}

// Adds to it.
fn add_at(totals: &mut [u64], place: usize, x: Words)
    requires { (length totals.old ≡ number_count) × (place < sum_count) }
    ensures { totals.new ≡ plus_at totals.old place (units_in x) }
{
    let sum = sum_at(totals, place).plus(x);
    totals[2 * place] = sum.low;
    totals[2 * place + 1] = sum.high;
}

// The sums of nothing.
pub fn none() -> [u64; NUMBERS]
    ensures { result ≡ no_numbers }
{
    [0; NUMBERS]
}

// Adds to the sums of the emission's code; a code that the listing does not have adds to none, and memory of another length stays as it is.
#[tactic(auto, using(crate::proofs::Columns::plus_length), unfolding(crate::specs::Lent::plus_in, sums::specs::Choice::if_then_else))]
pub fn add(totals: &mut [u64], e: Emission)
    ensures { totals.new ≡ plus_in totals.old e }
{
    if totals.len() != NUMBERS {
        return;
    }
    if let Some(place) = slot_file::place_of(e.code) {
        add_at(totals, place, e.annual.0);
        add_at(totals, COUNT + place, e.peak.0);
    }
}

// The emissions of a source.
#[tactic(auto, unfolding(crate::specs::Lent::plus_to_in, sums::specs::Figures::words_of))]
pub fn add_all<const N: usize>(totals: &mut [u64], emissions: [Emission; N])
    ensures { totals.new ≡ plus_to_in totals.old emissions.entry N }
{
    for e in emissions {
        add(totals, e);
    }
}

// The sums of memory that has them.
fn totals_of(totals: &[u64]) -> Totals
    requires { length totals.now ≡ number_count }
    ensures { result ≡ totals_of totals.now }
{
    Totals {
        annual: array::from_fn(|p| AnnualSum::from(sum_at(totals, p))),
        peak: array::from_fn(|p| PeakSum::from(sum_at(totals, COUNT + p))),
    }
}

// Each sum, rounded; of memory of another length, nothing.
#[tactic(auto, unfolding(crate::specs::Lent::figures_in, sums::specs::Choice::if_then_else))]
pub fn rounded(totals: &[u64]) -> Figures
    ensures { result ≡ figures_in totals.now }
{
    if totals.len() == NUMBERS {
        totals_of(totals).figures()
    } else {
        Figures {
            annual: [0; COUNT],
            peak: [0; COUNT],
        }
    }
}
