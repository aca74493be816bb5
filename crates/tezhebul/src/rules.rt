// The source rules, asked with values and without a slot file.
ghost use Rattle.std.specs.Prelude.{◌≡◌};
ghost use Rattle.stores.specs.Rules.{handling_answer, standing_answer, aspiration_answer};
ghost use Rattle.vehicles.specs.Rules.{group_answer};
ghost use Rattle.locomotives.specs.Rules.{locomotive_answer};
ghost use Rattle.answer_numbers.specs.Numbers.{store_numbers, store_size, locomotive_numbers, locomotive_size, Given};
ghost use Rattle.tezhebul.specs.Fields.{handling_of, standing_of, aspiration_of, group_of, rows_of, flagged, locomotive_of};
ghost use Rattle.tezhebul.specs.Memory.{GroupGiven};

use super::fields;
use super::fields::COEFFICIENTS;
use locomotive_fields::Locomotive;
use store_records::{Aspiration, Handling, Standing};
use sums::{Emission, Reason, Refusal};
use vehicle_fields::Group;
use vehicles::EMISSIONS;

// The numbers of what a handling record gives at the start of `out`; false, and nothing written, where it has room for fewer.
pub fn tezhebul_handling(
    dust: u8,
    store: u16,
    material: u8,
    wind: u16,
    moisture: u16,
    grain: u16,
    openness: u8,
    amount: u32,
    drop: u8,
    out: &mut [u64],
) -> bool
    ensures { Given store_size (store_numbers (handling_answer (handling_of dust store material wind moisture grain openness amount drop))) out.old result out.new }
{
    let bulk = fields::bulk_of(
        dust, store, material, wind, moisture, grain, openness, amount,
    );
    answer_numbers::give_store(stores::handling_emission(Handling { bulk, drop }), out)
}

// The numbers of what a standing record gives, likewise.
pub fn tezhebul_standing(
    dust: u8,
    store: u16,
    material: u8,
    wind: u16,
    moisture: u16,
    grain: u16,
    openness: u8,
    amount: u32,
    k6: u16,
    out: &mut [u64],
) -> bool
    ensures { Given store_size (store_numbers (standing_answer (standing_of dust store material wind moisture grain openness amount k6))) out.old result out.new }
{
    let bulk = fields::bulk_of(
        dust, store, material, wind, moisture, grain, openness, amount,
    );
    answer_numbers::give_store(stores::standing_emission(Standing { bulk, k6 }), out)
}

// The numbers of what an aspiration record gives, likewise.
pub fn tezhebul_aspiration(
    dust: u8,
    store: u16,
    concentration: u32,
    flow: u32,
    capture: u16,
    hours: u16,
    out: &mut [u64],
) -> bool
    ensures { Given store_size (store_numbers (aspiration_answer (aspiration_of dust store concentration flow capture hours))) out.old result out.new }
{
    answer_numbers::give_store(
        stores::aspiration_emission(Aspiration {
            dust,
            store,
            concentration,
            flow,
            capture,
            hours,
        }),
        out,
    )
}

#[tactic(auto, unfolding(crate::specs::Fields::flagged, sums::specs::Choice::if_then_else))]
fn group_answer(
    flags: u8,
    g: Group,
    temperatures: &[i16; 12],
    coefficients: &[u32; COEFFICIENTS],
) -> Result<[Emission; EMISSIONS], Refusal>
    ensures { result ≡ flagged flags (group_answer g temperatures.now (rows_of coefficients.now)) }
{
    if flags <= 3 {
        vehicles::group_emissions(g, *temperatures, fields::rows_of(coefficients))
    } else {
        Err(Refusal::of_source(Reason::OutOfRange))
    }
}

// The numbers of what a group gives of each pollutant; false, and nothing written, also where a slice is not as long as it has to be.
pub fn tezhebul_group(
    category: u8,
    fuel: u8,
    flags: u8,
    vehicles: u16,
    leaving: u16,
    share: u8,
    running: u8,
    warming: u8,
    idle: u32,
    timed: u32,
    distances: &[u32],
    days: &[u8],
    temperatures: &[i16],
    coefficients: &[u32],
    out: &mut [u64],
) -> bool
    ensures { GroupGiven flags (group_of category fuel flags vehicles leaving share running warming idle timed) distances.now days.now temperatures.now coefficients.now out.old result out.new }
{
    match fields::arrays_of(distances, days, temperatures, coefficients) {
        Some((distances, days, temperatures, coefficients)) => {
            let g = fields::group_of(
                category, fuel, flags, vehicles, leaving, share, running, warming, idle, timed,
                distances, days,
            );
            answer_numbers::give_group(group_answer(flags, g, temperatures, coefficients), out)
        }
        None => false,
    }
}

// The numbers of what a locomotive gives of each substance; false, and nothing written, where `out` has room for fewer.
pub fn tezhebul_locomotive(
    model: u8,
    idle: u16,
    quarter: u16,
    half: u16,
    three_quarters: u16,
    full: u16,
    hours: u16,
    old: u8,
    zone: u8,
    out: &mut [u64],
) -> bool
    ensures { Given locomotive_size (locomotive_numbers (locomotive_answer (locomotive_of model idle quarter half three_quarters full hours old zone))) out.old result out.new }
{
    let shares = [idle, quarter, half, three_quarters, full];
    answer_numbers::give_locomotive(
        locomotives::locomotive_emissions(Locomotive {
            model,
            shares,
            hours,
            old,
            zone,
        }),
        out,
    )
}
