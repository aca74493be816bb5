// A vehicle's trip out of the yard, and the mass of any warm-up, run and idling, in 2,000,000,000ths of a gram.
ghost use Rattle.std.specs.Prelude.{◌≡◌, ◌*◌, ◌≤◌};
ghost use Rattle.vehicles.specs.Parts.{DistancesInRange, distance_sum, mass_parts, out_parts};

use super::arithmetic;
use super::sound::Pollutant;
use super::year::Year;
use vehicle_fields::{Distances, Metres, Neutraliser};

// The sum of any two distances could pass 32 bits; that these two are in range only `Sound` knows, which has them.
pub(crate) fn distance_sum(d: Distances) -> Metres
    requires { DistancesInRange d }
    ensures { result ≡ distance_sum d }
{
    Metres(d.nearest.0 + d.farthest.0)
}

// A mass times a percentage. The bound keeps the product within 64 bits; it stands here alone, and the masses of `mass_of` are below it.
fn percent(mass: u64, p: u8) -> u64
    requires { mass ≤ 100000000000000 }
    ensures { (result ≡ mass * p) × (result ≤ 255 * mass) }
{
    mass * u64::from(p)
}

// So much warm-up, run and idling, after their percentages. The bounds are those of a year; that it, and a trip, are within them only `Year` knows.
#[tactic(auto, unfolding(crate::specs::Parts::mass_parts))]
pub(crate) fn mass_of(n: Neutraliser, control: u8, warmup: u64, run: u64, idle: u64) -> u64
    requires { (warmup ≤ 111600000000) × (run ≤ 29760000000000) × (idle ≤ 186000000000) }
    ensures { result ≡ mass_parts n control warmup run idle }
{
    let running = n.running;
    percent(percent(2 * warmup, control), n.warming)
        + (percent(run, running) + percent(percent(2 * idle, control), running))
}

impl Year {
    // The trip out in the coldest month.
    #[tactic(auto, using(crate::proofs::Bounds::out_warmup, crate::proofs::Bounds::out_run, crate::proofs::Bounds::out_most), unfolding(crate::specs::Parts::out_parts))]
    pub(crate) fn outward(&self, p: &Pollutant) -> u64
        ensures { (result ≡ out_parts self.now.sound.group p.now.coefficients p.now.control self.now.coldest) × (result ≤ 15000000000000) }
    {
        let k = p.coefficients;
        let g = &self.sound.group;
        let w = self.coldest;
        let period = w.period.place();
        mass_of(
            g.neutraliser,
            p.control,
            arithmetic::times(k.warmup[period], w.minutes),
            arithmetic::times(k.run[period], distance_sum(g.outward)),
            arithmetic::times(k.idle, g.idle),
        )
    }
}
