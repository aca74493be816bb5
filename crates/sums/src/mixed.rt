// A sum over its denominator: a division of two words, whose quotient is whole units.
ghost use Rattle.std.specs.Prelude.{◌≡◌, ◌+◌, ◌*◌, ◌^◌, ◌<◌, ◌≤◌};
ghost use Rattle.sums.specs.Arithmetic.{step_of};
ghost use Rattle.sums.specs.Figures.{mixed_of};

use super::sum::Unit;

// Whole units, and the part of one that is left, in exact units.
#[derive(Clone, Copy)]
pub struct Mixed {
    pub whole: u64,
    pub part: u64,
}

// One step of a division: what was left so far, with 16 bits more, by the denominator. How small both are only its one caller knows.
#[tactic(auto, using(crate::proofs::LongDivision::digit))]
fn step<U: Unit>(rest: u64, bits: u64) -> Mixed
    requires { (rest < U.DENOMINATOR) × (bits ≤ 65535) }
    ensures { (result ≡ step_of U.DENOMINATOR rest bits) × (result.whole ≤ 65535) × (result.part < U.DENOMINATOR) }
{
    let next = rest * 65_536 + bits;
    Mixed {
        whole: next / U::DENOMINATOR,
        part: next % U::DENOMINATOR,
    }
}

// A division of one word.
#[tactic(auto, unfolding(crate::specs::Figures::mixed_of))]
pub(crate) fn one_word<U: Unit>(x: u64) -> Mixed
    ensures { (result ≡ mixed_of U.DENOMINATOR x) × (result.part < U.DENOMINATOR) }
{
    Mixed {
        whole: x / U::DENOMINATOR,
        part: x % U::DENOMINATOR,
    }
}

// A division of two words: what the high one leaves goes on into the low one, 16 bits at a time. Of the quotient it keeps 64 bits.
// By hand, since a division of a u128 would call the compiler's runtime.
pub(crate) fn two_words<U: Unit>(high: u64, low: u64) -> Mixed
    ensures { (result ≡ mixed_of U.DENOMINATOR (high * 2 ^ 64 + low)) × (result.part < U.DENOMINATOR) }
{
    let digits = [
        low / 281_474_976_710_656,
        low / 4_294_967_296 % 65_536,
        low / 65_536 % 65_536,
        low % 65_536,
    ];
    let mut m = one_word::<U>(high);
    for bits in digits {
        let next = step::<U>(m.part, bits);
        m = Mixed {
            whole: (m.whole << 16) + next.whole,
            part: next.part,
        };
    }
    m
}
