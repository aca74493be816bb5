// Running totals, by `plus` alone.
use sums::Emission;
use vehicles::EMISSIONS;

// By an emission's place in its source's answer, whatever its code: of a group there are the most.
pub(crate) type ByPlace = [Emission; EMISSIONS];

// The code is of no account here.
pub(crate) fn plus(a: Emission, b: Emission) -> Emission {
    Emission {
        code: 0,
        annual: a.annual.plus(b.annual),
        peak: a.peak.plus(b.peak),
    }
}

pub(crate) fn repeated(e: Emission, times: u16) -> Emission {
    (0..times).fold(Emission::none(), |total, _| plus(total, e))
}
