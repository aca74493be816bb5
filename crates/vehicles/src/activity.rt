// What one vehicle of a group does in a year. Of what it does in a day only the coefficients' period and the warm-up depend on the month, so the months of a period are one
// sum.
ghost use Rattle.std.specs.Prelude.{◌≡◌};
ghost use Rattle.vehicles.specs.Parts.{activity_of, day_run, day_idle};

use super::sound::Sound;
use super::{arithmetic, trip};
use vehicle_fields::{Metres, Minutes};

// Warm-up and run in the warm, transitional and cold period, and idling: what a pollutant's coefficients are multiplied by. The metres are those of the
// nearest and of the farthest place together, twice their mean.
#[derive(Clone, Copy)]
pub struct Activity {
    pub warmup: [Minutes; 3],
    pub run: [Metres; 3],
    pub idle: Minutes,
}

impl Sound {
    // Out and in, on one day.
    fn day_run(&self) -> Metres
        ensures { result ≡ day_run self.now.group }
    {
        let outward = self.group.outward;
        let inward = self.group.inward;
        Metres(trip::distance_sum(outward).0 + trip::distance_sum(inward).0)
    }

    fn day_idle(&self) -> Minutes
        ensures { result ≡ day_idle self.now.group }
    {
        Minutes(2 * self.group.idle.0)
    }

    // The year, in months of these bands.
    #[tactic(auto, using(warmups::proofs::Decided::conditions_in_range, crate::proofs::Periods::day_run_lem, crate::proofs::Periods::idle_so_far, crate::proofs::Periods::run_so_far, crate::proofs::Periods::warmup_so_far))]
    pub(crate) fn activity(&self, bands: [u8; 12]) -> Activity
        ensures { result ≡ activity_of self.now.times self.now.group bands }
    {
        let days = self.group.days;
        let run = self.day_run();
        let idle = self.day_idle();
        let mut minutes = [Minutes(0); 3];
        let mut metres = [Metres(0); 3];
        let mut idling = Minutes(0);
        // By the month's number: what is summed so far is of the months before it.
        for (i, band) in bands.iter().enumerate() {
            let w = warmups::conditions_in(self.times, self.group, *band);
            let period = w.period.place();
            let n = days[i];
            minutes[period] = arithmetic::more(minutes[period], n, w.minutes);
            metres[period] = arithmetic::more(metres[period], n, run);
            idling = arithmetic::more(idling, n, idle);
        }
        Activity {
            warmup: minutes,
            run: metres,
            idle: idling,
        }
    }
}
