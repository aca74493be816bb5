// What a source rule answers: what the source gives to substances, or why it is refused.
ghost use Rattle.std.specs.Prelude.{◌≡◌};
ghost use Rattle.sums.specs.Answer.{number_of, of_source, no_emission};

use super::sum::{AnnualSum, PeakSum};

// Why a file, a source or a listing is refused: the question that is answered no, by its number in 01 and 02.
#[derive(Clone, Copy, PartialEq, Eq)]
pub enum Reason {
    Length = 1,
    Format = 2,
    Count = 3,
    HeaderBytes = 4,
    Temperatures = 5,
    LinkPastEnd = 6,
    Repeated = 7,
    WrongKind = 8,
    OutOfRange = 9,
    CoefficientChain = 10,
    SootOrLead = 11,
    Unreached = 12,
    ShortBuffer = 13,
    Shares = 14,
}

impl From<Reason> for u8 {
    ghost from_gives = { λ r n. n ≡ number_of r };

    // The discriminant, which `as` alone gives.
    fn from(r: Reason) -> u8 {
        r as u8
    }
}

// A reason, and the slot that it is told of.
#[derive(Clone, Copy, PartialEq, Eq)]
pub struct Refusal {
    pub reason: Reason,
    pub slot: u16,
}

impl Refusal {
    // Of a source that a rule is asked of: it has no slot, and 01 names slot 0. No `From`: a `?` would go by it where a slot's read is
    // refused, and name slot 0.
    pub fn of_source(reason: Reason) -> Self
        ensures { result ≡ of_source reason }
    {
        Self { reason, slot: 0 }
    }
}

// What a source gives to one substance, by its code: a year's mass and the peak rate. The code is a number, as the papers name substances: who adds emissions may hand over
// any, and one that the listing does not have is added to none.
#[derive(Clone, Copy)]
pub struct Emission {
    pub code: u16,
    pub annual: AnnualSum,
    pub peak: PeakSum,
}

impl Emission {
    // Of no substance: no code is 0.
    pub fn none() -> Self
        ensures { result ≡ no_emission }
    {
        Self {
            code: 0,
            annual: AnnualSum::zero(),
            peak: PeakSum::zero(),
        }
    }
}
