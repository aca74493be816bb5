// The fields of a vehicle group and of its coefficients, and whether each is in its range.
ghost use Rattle.std.specs.Prelude.{◌≡◌};
ghost use Rattle.vehicle_fields.specs.Fields.{distances_from, distances_in_range, days_in_range, group_in_range, seven, coefficients_from, coefficients_in_range, all_in_range};
ghost use Rattle.vehicle_fields.specs.SootAndLead.{all_zero};

use super::units::{Metres, Minutes, PerKilometre, PerMinute};

// How many pollutants coefficients are given for: CO, hydrocarbons, NO2, soot, SO2, lead.
pub const POLLUTANTS: usize = 6;

// From the nearest and from the farthest place of the yard.
#[derive(Clone, Copy)]
pub struct Distances {
    pub nearest: Metres,
    pub farthest: Metres,
}

impl From<[u32; 2]> for Distances {
    ghost from_gives = { λ l d. d ≡ distances_from l };

    #[tactic(auto, unfolding(crate::specs::Fields::distances_from))]
    fn from(numbers: [u32; 2]) -> Self {
        let [nearest, farthest] = numbers;
        Self {
            nearest: Metres(nearest),
            farthest: Metres(farthest),
        }
    }
}

// The neutraliser's factors in percent: for run and idle, and for warm-up.
#[derive(Clone, Copy)]
pub struct Neutraliser {
    pub running: u8,
    pub warming: u8,
}

// Category: 1 car, 2 truck, 3 bus. Fuel: 1 petrol, 2 diesel. `controlled`: emission control is done. `heated`: a heated stand. `leaving`: the most
// vehicles that leave in one hour. `share`: the percent that leave in a day. `days`: worked in each month. `timed`: the warm-up as it was timed, or 0,
// as 02 has it: a `None` would be made of that 0 wherever a group is handed over. Category and fuel are numbers and no enums: the rule takes any value and refuses it itself,
// by 9.
#[derive(Clone, Copy)]
pub struct Group {
    pub category: u8,
    pub fuel: u8,
    pub controlled: bool,
    pub heated: bool,
    pub vehicles: u16,
    pub leaving: u16,
    pub share: u8,
    pub neutraliser: Neutraliser,
    pub idle: Minutes,
    pub outward: Distances,
    pub inward: Distances,
    pub days: [u8; 12],
    pub timed: Minutes,
}

// One pollutant's: warm-up and run in the warm, transitional and cold period, and idle.
#[derive(Clone, Copy)]
pub struct Coefficients {
    pub warmup: [PerMinute; 3],
    pub run: [PerKilometre; 3],
    pub idle: PerMinute,
}

impl From<[u32; 7]> for Coefficients {
    ghost from_gives = { λ l k. k ≡ coefficients_from l };

    #[tactic(auto, unfolding(crate::specs::Fields::coefficients_from))]
    fn from(numbers: [u32; 7]) -> Self {
        let [warm, between, cold, warm_run, run_between, cold_run, idle] = numbers;
        Self {
            warmup: [PerMinute(warm), PerMinute(between), PerMinute(cold)],
            run: [
                PerKilometre(warm_run),
                PerKilometre(run_between),
                PerKilometre(cold_run),
            ],
            idle: PerMinute(idle),
        }
    }
}

#[tactic(auto, unfolding(crate::specs::Fields::distances_in_range))]
fn distances_in_range(d: Distances) -> bool
    ensures { result ≡ distances_in_range d }
{
    (d.nearest.0 <= 20_000) & (d.farthest.0 <= 20_000)
}

// February as in a leap year.
const MONTH_LENGTHS: [u8; 12] = [31, 29, 31, 30, 31, 30, 31, 31, 30, 31, 30, 31];

fn days_in_range(days: [u8; 12]) -> bool
    ensures { result ≡ days_in_range days }
{
    days.iter()
        .zip(MONTH_LENGTHS.iter())
        .all(|(day, length)| *day <= *length)
}

// Two comparisons for each range, as the definition lists them: by `contains` it is no cheaper, and its proof is longer.
#[tactic(auto, unfolding(crate::specs::Fields::group_in_range))]
pub fn group_in_range(g: Group) -> bool
    ensures { result ≡ group_in_range g }
{
    (1 <= g.category)
        & (g.category <= 3)
        & (1 <= g.fuel)
        & (g.fuel <= 2)
        & (1 <= g.vehicles)
        & (g.vehicles <= 10_000)
        & (g.leaving <= g.vehicles)
        & (g.share <= 100)
        & (g.neutraliser.running <= 100)
        & (g.neutraliser.warming <= 100)
        & (g.idle.0 <= 250)
        & distances_in_range(g.outward)
        & distances_in_range(g.inward)
        & days_in_range(g.days)
        & (g.timed.0 <= 250)
}

// The numbers of a row: the way back of `From`, which nobody else takes.
fn seven(k: Coefficients) -> [u32; 7]
    ensures { result ≡ seven k }
{
    let [warm, between, cold] = k.warmup;
    let [warm_run, run_between, cold_run] = k.run;
    [
        warm.0,
        between.0,
        cold.0,
        warm_run.0,
        run_between.0,
        cold_run.0,
        k.idle.0,
    ]
}

// `fold` has no branch between the tests: six rows take 59 instructions, by `all` they take 88.
pub fn coefficients_in_range(k: Coefficients) -> bool
    ensures { result ≡ coefficients_in_range k }
{
    seven(k).iter().fold(true, |ok, n| ok & (*n <= 1_000_000))
}

pub(crate) fn all_in_range(ks: [Coefficients; POLLUTANTS]) -> bool
    ensures { result ≡ all_in_range ks }
{
    ks.iter().fold(true, |ok, k| ok & coefficients_in_range(*k))
}

#[tactic(auto, unfolding(crate::specs::SootAndLead::all_zero))]
pub(crate) fn all_zero(k: Coefficients) -> bool
    ensures { result ≡ all_zero k }
{
    seven(k) == [0; 7]
}
