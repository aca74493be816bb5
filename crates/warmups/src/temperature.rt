// Monthly mean temperatures, in tenths of a degree: the lowest, and the band of the warm-up table.
ghost use Rattle.std.specs.Prelude.{◌≡◌};
ghost use Rattle.warmups.specs.Temperatures.{lowest_of, warmup_band};

// A loop, since `min` of an iterator answers an `Option`, with a case of no temperatures that never is.
#[tactic(auto, using(crate::proofs::Edges::kept, crate::proofs::Edges::lower), unfolding(crate::specs::Temperatures::lowest_to))]
pub(crate) fn lowest(ts: [i16; 12]) -> i16
    ensures { result ≡ lowest_of ts }
{
    let mut least = ts[0];
    for t in ts {
        least = least.min(t);
    }
    least
}

// 0 the warmest.
#[tactic(auto, unfolding(crate::specs::Temperatures::place, crate::specs::Temperatures::below, sums::specs::Choice::if_then_else))]
pub(crate) fn warmup_band(t: i16) -> u8
    ensures { result ≡ warmup_band t }
{
    match t {
        51.. => 0,
        -50..=50 => 1,
        -100..=-51 => 2,
        -150..=-101 => 3,
        -200..=-151 => 4,
        -250..=-201 => 5,
        _ => 6,
    }
}
