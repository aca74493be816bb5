// The exact sums: of a year's mass, and of the peak rate.
ghost use Rattle.std.specs.Prelude.{◌≡◌, ℕ, ◌+◌, ◌*◌, ◌%◌, ◌^◌};
ghost use Rattle.std.proofs.Common.{lit<, lit≤};
ghost use Rattle.sums.specs.Arithmetic.{Denominator};
ghost use Rattle.sums.specs.Figures.{annual_denominator, peak_denominator, sum_parts, sum_in, sum_of, sum_printed, sum_rounded};

use super::mixed::Mixed;
use super::words::Words;
use std::marker::PhantomData;

// What a sum is printed in.
pub trait Unit {
    // Exact units in a printed one.
    const DENOMINATOR: u64;

    ghost DENOMINATOR: { ℕ };

    ghost divides: { Denominator DENOMINATOR };
}

// A millionth of a tonne.
#[derive(Clone, Copy)]
pub struct Annual;

impl Unit for Annual {
    const DENOMINATOR: u64 = 20_000_000_000_000;

    ghost DENOMINATOR = { annual_denominator };

    ghost divides = { record { least = lit< tt; most = lit≤ tt } };
}

// A ten-millionth of a gram per second.
#[derive(Clone, Copy)]
pub struct Peak;

impl Unit for Peak {
    const DENOMINATOR: u64 = 72_000_000;

    ghost DENOMINATOR = { peak_denominator };

    ghost divides = { record { least = lit< tt; most = lit≤ tt } };
}

// So many exact units.
#[derive(Clone, Copy)]
pub struct Sum<U>(pub Words, PhantomData<U>);

pub type AnnualSum = Sum<Annual>;

pub type PeakSum = Sum<Peak>;

// By the sums' own names, as 01 has them; a constant of the generic block cannot stand in another constant.
impl AnnualSum {
    pub const DENOMINATOR: u64 = Annual::DENOMINATOR;
}

impl PeakSum {
    pub const DENOMINATOR: u64 = Peak::DENOMINATOR;
}

impl<U> From<Words> for Sum<U> {
    ghost from_gives = { λ w s. s ≡ sum_in w };

    fn from(w: Words) -> Self {
        Self(w, PhantomData)
    }
}

impl<U: Unit> Sum<U> {
    // 01 names a function for a zero sum.
    pub fn zero() -> Self
        ensures { result ≡ sum_of 0 }
    {
        Self::of(0)
    }

    pub fn of(x: u64) -> Self
        ensures { result ≡ sum_of x }
    {
        Self::from(Words::of(x))
    }

    // Functions and no `Add` and `Mul`: turns of 2 to the 128th are dropped, which `+` and `*` may not do.
    pub fn plus(self, other: Self) -> Self
        ensures { result ≡ sum_of (sum_parts self + sum_parts other) }
    {
        Self::from(self.0.plus(other.0))
    }

    pub fn times(self, k: u32) -> Self
        ensures { result ≡ sum_of (sum_parts self * k) }
    {
        Self::from(self.0.times(k))
    }

    // Whole printed units, and a part of one over the denominator.
    pub fn printed(self) -> Mixed
        ensures { result ≡ sum_printed U.DENOMINATOR self }
    {
        self.0.over::<U>()
    }

    pub fn rounded(self) -> u64
        ensures { result ≡ sum_rounded U.DENOMINATOR self % 2 ^ 64 }
    {
        self.0.rounded::<U>()
    }
}
