// Two words of 64 bits: the arithmetic of exact sums.
ghost use Rattle.std.specs.Prelude.{◌≡◌, ◌+◌, ◌*◌, ◌%◌, ◌^◌, ◌<◌};
ghost use Rattle.sums.specs.Figures.{units_in, words_of, mixed_of, nearest};
ghost use Rattle.sums.specs.Fraction.{◌over◌};

use super::mixed;
use super::mixed::Mixed;
use super::sum::Unit;

// A whole number of exact units: two words and no `u128`, since the division by a denominator goes by words.
#[derive(Clone, Copy)]
pub struct Words {
    pub high: u64,
    pub low: u64,
}

// A half of 128 bits is below this and fits 64, where `try_from` would have a case that never is: `as` turns it.
const WORD: u128 = 0x1_0000_0000_0000_0000;

impl From<u128> for Words {
    ghost from_gives = { λ x w. w ≡ words_of x };

    #[tactic(auto, unfolding(crate::specs::Figures::words_of))]
    fn from(x: u128) -> Self {
        Self {
            high: (x / WORD) as u64,
            low: (x % WORD) as u64,
        }
    }
}

impl From<Words> for u128 {
    ghost from_gives = { λ w x. x ≡ units_in w };

    #[tactic(auto, unfolding(crate::specs::Figures::units_in))]
    fn from(w: Words) -> Self {
        u128::from(w.high) * WORD + u128::from(w.low)
    }
}

impl Words {
    pub(crate) fn of(x: u64) -> Self
        ensures { result ≡ words_of x }
    {
        Self::from(u128::from(x))
    }

    #[tactic(auto, using(crate::proofs::Wrapping::wrapped))]
    pub fn plus(self, other: Words) -> Self
        ensures { result ≡ words_of (units_in self + units_in other) }
    {
        Self::from(u128::from(self).wrapping_add(u128::from(other)))
    }

    #[tactic(auto, using(crate::proofs::Wrapping::wrapped))]
    pub(crate) fn times(self, k: u32) -> Self
        ensures { result ≡ words_of (units_in self * k) }
    {
        Self::from(u128::from(self).wrapping_mul(u128::from(k)))
    }

    // As whole printed units, and what is left of one.
    #[tactic(auto, unfolding(crate::specs::Figures::units_in))]
    pub(crate) fn over<U: Unit>(self) -> Mixed
        ensures { (result ≡ mixed_of U.DENOMINATOR (units_in self)) × (result.part < U.DENOMINATOR) }
    {
        if self.high == 0 {
            mixed::one_word::<U>(self.low)
        } else {
            mixed::two_words::<U>(self.high, self.low)
        }
    }

    // To the nearest printed unit. Nothing is divided where there are no units, as of many a code of a file.
    #[tactic(auto, using(crate::proofs::Nearest::none, crate::proofs::Nearest::up, crate::proofs::Nearest::down), unfolding(crate::specs::Figures::units_in, crate::specs::Figures::mixed_of))]
    pub(crate) fn rounded<U: Unit>(self) -> u64
        ensures { result ≡ nearest (units_in self over U.DENOMINATOR) % 2 ^ 64 }
    {
        if self.low == 0 && self.high == 0 {
            return 0;
        }
        let m = self.over::<U>();
        let half = U::DENOMINATOR - m.part <= m.part;
        if half {
            m.whole.wrapping_add(1)
        } else {
            m.whole
        }
    }
}
