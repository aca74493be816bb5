// Units multiply only with their own: coefficients per minute with minutes, per kilometre with metres.
ghost use Rattle.std.specs.Prelude.{◌≡◌, ℕ, ◌+◌, ◌*◌, ◌≤◌, get_or};
ghost use Rattle.sums.specs.Choice.{sum_to};

use vehicle_fields::{Metres, Minutes, PerKilometre, PerMinute};

// A unit of measure, and the coefficients that are given for it. `none` and `free` stand past the end of a list of them.
pub(crate) trait Measure: Copy {
    type Per: Copy;

    ghost count: { Self → ℕ };

    ghost rate: { Self.Per → ℕ };

    ghost none: { Self };

    ghost free: { Self.Per };

    fn of(n: u32) -> Self
        ensures { count result ≡ n };

    fn count(self) -> u32
        ensures { result ≡ count self };

    fn rate(k: Self::Per) -> u32
        ensures { result ≡ rate k };
}

impl Measure for Minutes {
    type Per = PerMinute;

    ghost count = { λ t. t.0 };

    ghost rate = { λ k. k.0 };

    ghost none = { record { 0 = 0 } };

    ghost free = { record { 0 = 0 } };

    fn of(n: u32) -> Self {
        Minutes(n)
    }

    fn count(self) -> u32 {
        self.0
    }

    fn rate(k: PerMinute) -> u32 {
        k.0
    }
}

impl Measure for Metres {
    type Per = PerKilometre;

    ghost count = { λ d. d.0 };

    ghost rate = { λ k. k.0 };

    ghost none = { record { 0 = 0 } };

    ghost free = { record { 0 = 0 } };

    fn of(n: u32) -> Self {
        Metres(n)
    }

    fn count(self) -> u32 {
        self.0
    }

    fn rate(k: PerKilometre) -> u32 {
        k.0
    }
}

// n times x more. The bounds keep it within 32 bits; that a year's minutes and metres are within them only the loop over its months knows.
pub(crate) fn more<M: Measure>(total: M, n: u8, x: M) -> M
    requires { (M.count total ≤ 1000000000) × (M.count x ≤ 80000) }
    ensures { M.count result ≡ M.count total + n * M.count x }
{
    M::of(total.count() + u32::from(n) * x.count())
}

pub(crate) fn times<M: Measure>(k: M::Per, x: M) -> u64
    ensures { result ≡ M.rate k * M.count x }
{
    u64::from(M::rate(k)) * u64::from(x.count())
}

// Over the three periods, each with its coefficient: three terms, by `zip`, `map` and `sum` no shorter. Their sum could pass 64 bits; that it does not only its caller
// knows, of the coefficients in range.
#[tactic(auto, unfolding(sums::specs::Choice::sum_to))]
pub(crate) fn over_periods<M: Measure>(ks: [M::Per; 3], xs: [M; 3]) -> u64
    requires { sum_to 3 (λ p. M.rate (get_or ks p M.free) * M.count (get_or xs p M.none)) ≤ 29760000000000 }
    ensures { result ≡ sum_to 3 (λ p. M.rate (get_or ks p M.free) * M.count (get_or xs p M.none)) }
{
    times(ks[0], xs[0]) + times(ks[1], xs[1]) + times(ks[2], xs[2])
}
