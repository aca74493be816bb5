// The source rules, each by the function of its name in `tezhebul`, whose promise it repeats.
ghost use Rattle.stores.specs.Rules.{handling_answer, standing_answer, aspiration_answer};
ghost use Rattle.locomotives.specs.Rules.{locomotive_answer};
ghost use Rattle.answer_numbers.specs.Numbers.{store_numbers, store_size, locomotive_numbers, locomotive_size, Given};
ghost use Rattle.tezhebul.specs.Fields.{handling_of, standing_of, aspiration_of, group_of, locomotive_of};
ghost use Rattle.tezhebul.specs.Memory.{GroupGiven};

#[unsafe(no_mangle)]
pub extern "C" fn tezhebul_handling(
    dust: u8,
    store: u16,
    material: u8,
    wind: u16,
    moisture: u16,
    grain: u16,
    openness: u8,
    amount: u32,
    drop: u8,
    out: &mut [u64],
) -> bool
    ensures { Given store_size (store_numbers (handling_answer (handling_of dust store material wind moisture grain openness amount drop))) out.old result out.new }
{
    tezhebul::rules::tezhebul_handling(
        dust, store, material, wind, moisture, grain, openness, amount, drop, out,
    )
}

#[unsafe(no_mangle)]
pub extern "C" fn tezhebul_standing(
    dust: u8,
    store: u16,
    material: u8,
    wind: u16,
    moisture: u16,
    grain: u16,
    openness: u8,
    amount: u32,
    k6: u16,
    out: &mut [u64],
) -> bool
    ensures { Given store_size (store_numbers (standing_answer (standing_of dust store material wind moisture grain openness amount k6))) out.old result out.new }
{
    tezhebul::rules::tezhebul_standing(
        dust, store, material, wind, moisture, grain, openness, amount, k6, out,
    )
}

#[unsafe(no_mangle)]
pub extern "C" fn tezhebul_aspiration(
    dust: u8,
    store: u16,
    concentration: u32,
    flow: u32,
    capture: u16,
    hours: u16,
    out: &mut [u64],
) -> bool
    ensures { Given store_size (store_numbers (aspiration_answer (aspiration_of dust store concentration flow capture hours))) out.old result out.new }
{
    tezhebul::rules::tezhebul_aspiration(dust, store, concentration, flow, capture, hours, out)
}

#[unsafe(no_mangle)]
pub extern "C" fn tezhebul_group(
    category: u8,
    fuel: u8,
    flags: u8,
    vehicles: u16,
    leaving: u16,
    share: u8,
    running: u8,
    warming: u8,
    idle: u32,
    timed: u32,
    distances: &[u32],
    days: &[u8],
    temperatures: &[i16],
    coefficients: &[u32],
    out: &mut [u64],
) -> bool
    ensures { GroupGiven flags (group_of category fuel flags vehicles leaving share running warming idle timed) distances.now days.now temperatures.now coefficients.now out.old result out.new }
{
    tezhebul::rules::tezhebul_group(
        category,
        fuel,
        flags,
        vehicles,
        leaving,
        share,
        running,
        warming,
        idle,
        timed,
        distances,
        days,
        temperatures,
        coefficients,
        out,
    )
}

#[unsafe(no_mangle)]
pub extern "C" fn tezhebul_locomotive(
    model: u8,
    idle: u16,
    quarter: u16,
    half: u16,
    three_quarters: u16,
    full: u16,
    hours: u16,
    old: u8,
    zone: u8,
    out: &mut [u64],
) -> bool
    ensures { Given locomotive_size (locomotive_numbers (locomotive_answer (locomotive_of model idle quarter half three_quarters full hours old zone))) out.old result out.new }
{
    tezhebul::rules::tezhebul_locomotive(
        model,
        idle,
        quarter,
        half,
        three_quarters,
        full,
        hours,
        old,
        zone,
        out,
    )
}
