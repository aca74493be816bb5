// The fields of sources from the numbers that a caller hands over.
ghost use Rattle.std.specs.Prelude.{◌≡◌, IfSome, is_some};
ghost use Rattle.tezhebul.specs.Fields.{bulk_of, lengths, group_of, rows_of};

use std::array;
use store_records::Bulk;
use vehicle_fields::{Coefficients, Distances, Group, Minutes, Neutraliser, POLLUTANTS};

pub(crate) fn bulk_of(
    dust: u8,
    store: u16,
    material: u8,
    wind: u16,
    moisture: u16,
    grain: u16,
    openness: u8,
    amount: u32,
) -> Bulk
    ensures { result ≡ bulk_of dust store material wind moisture grain openness amount }
{
    Bulk {
        dust,
        store,
        material,
        wind,
        moisture,
        grain,
        openness,
        amount,
    }
}

// The numbers of a pollutant's row, and of all rows.
const ROW: usize = 7;

pub(crate) const COEFFICIENTS: usize = ROW * POLLUTANTS;

// Each slice as an array, where each is as long as it has to be.
#[tactic(auto, unfolding(crate::specs::Fields::lengths))]
pub(crate) fn arrays_of<'a>(
    distances: &'a [u32],
    days: &'a [u8],
    temperatures: &'a [i16],
    coefficients: &'a [u32],
) -> Option<
    (
        &'a [u32; 4],
        &'a [u8; 12],
        &'a [i16; 12],
        &'a [u32; COEFFICIENTS],
    ),
>
    ensures lengths { is_some result ≡ lengths distances.now days.now temperatures.now coefficients.now }
    ensures arrays { IfSome result (λ r. (r.0.now ≡ distances.now) × (r.1.now ≡ days.now) × (r.2.now ≡ temperatures.now) × (r.3.now ≡ coefficients.now)) }
{
    Some((
        distances.as_array()?,
        days.as_array()?,
        temperatures.as_array()?,
        coefficients.as_array()?,
    ))
}

#[tactic(auto, unfolding(vehicle_fields::specs::Fields::distances_from))]
pub(crate) fn group_of(
    category: u8,
    fuel: u8,
    flags: u8,
    vehicles: u16,
    leaving: u16,
    share: u8,
    running: u8,
    warming: u8,
    idle: u32,
    timed: u32,
    distances: &[u32; 4],
    days: &[u8; 12],
) -> Group
    ensures { result ≡ group_of category fuel flags vehicles leaving share running warming idle timed distances.now days.now }
{
    let [out_nearest, out_farthest, in_nearest, in_farthest] = *distances;
    Group {
        category,
        fuel,
        controlled: flags % 2 == 1,
        heated: flags / 2 % 2 == 1,
        vehicles,
        leaving,
        share,
        neutraliser: Neutraliser { running, warming },
        idle: Minutes(idle),
        outward: Distances::from([out_nearest, out_farthest]),
        inward: Distances::from([in_nearest, in_farthest]),
        days: *days,
        timed: Minutes(timed),
    }
}

// The rows of the pollutants.
pub(crate) fn rows_of(coefficients: &[u32; COEFFICIENTS]) -> [Coefficients; POLLUTANTS]
    ensures { result ≡ rows_of coefficients.now }
{
    let (rows, _) = coefficients.as_chunks::<ROW>();
    array::from_fn(|p| Coefficients::from(rows[p]))
}
