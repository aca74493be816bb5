// A call of each function, with the arguments of a case: a file, or numbers that are read one after the other from the room that they are in, in the order of the
// parameters, as C hands them over.
use super::arguments::{Function, Room};
use byteorder::{LE, ReadBytesExt};
use std::io::Read;
use tezhebul::{files, rules};

// What the function returns. The room is long enough for the numbers of any, so it is never nothing.
pub(crate) fn call(
    function: Function,
    file: &[u8],
    all: &Room,
    buffer: &mut [u8],
    out: &mut [u64],
) -> Option<u64> {
    Some(match function {
        Function::Check => u64::from(files::tezhebul_check(file)),
        Function::Answer => u64::from(files::tezhebul_answer(file, out)),
        // A length fits 64 bits, which have no `From` of one.
        Function::List => files::tezhebul_list(file, buffer, out) as u64,
        Function::Handling => u64::from(handling(all, out)?),
        Function::Standing => u64::from(standing(all, out)?),
        Function::Aspiration => u64::from(aspiration(all, out)?),
        Function::Group => u64::from(group(all, out)?),
        Function::Locomotive => u64::from(locomotive(all, out)?),
    })
}

fn handling(all: &Room, out: &mut [u64]) -> Option<bool> {
    let mut a = &all[..];
    Some(rules::tezhebul_handling(
        a.read_u8().ok()?,
        a.read_u16::<LE>().ok()?,
        a.read_u8().ok()?,
        a.read_u16::<LE>().ok()?,
        a.read_u16::<LE>().ok()?,
        a.read_u16::<LE>().ok()?,
        a.read_u8().ok()?,
        a.read_u32::<LE>().ok()?,
        a.read_u8().ok()?,
        out,
    ))
}

fn standing(all: &Room, out: &mut [u64]) -> Option<bool> {
    let mut a = &all[..];
    Some(rules::tezhebul_standing(
        a.read_u8().ok()?,
        a.read_u16::<LE>().ok()?,
        a.read_u8().ok()?,
        a.read_u16::<LE>().ok()?,
        a.read_u16::<LE>().ok()?,
        a.read_u16::<LE>().ok()?,
        a.read_u8().ok()?,
        a.read_u32::<LE>().ok()?,
        a.read_u16::<LE>().ok()?,
        out,
    ))
}

fn aspiration(all: &Room, out: &mut [u64]) -> Option<bool> {
    let mut a = &all[..];
    Some(rules::tezhebul_aspiration(
        a.read_u8().ok()?,
        a.read_u16::<LE>().ok()?,
        a.read_u32::<LE>().ok()?,
        a.read_u32::<LE>().ok()?,
        a.read_u16::<LE>().ok()?,
        a.read_u16::<LE>().ok()?,
        out,
    ))
}

fn locomotive(all: &Room, out: &mut [u64]) -> Option<bool> {
    let mut a = &all[..];
    Some(rules::tezhebul_locomotive(
        a.read_u8().ok()?,
        a.read_u16::<LE>().ok()?,
        a.read_u16::<LE>().ok()?,
        a.read_u16::<LE>().ok()?,
        a.read_u16::<LE>().ok()?,
        a.read_u16::<LE>().ok()?,
        a.read_u16::<LE>().ok()?,
        a.read_u8().ok()?,
        a.read_u8().ok()?,
        out,
    ))
}

// The first n, or all.
fn front<T>(all: &[T], n: u8) -> &[T] {
    all.get(..usize::from(n)).unwrap_or(all)
}

// The slices have room for more than is lent of them.
fn group(all: &Room, out: &mut [u64]) -> Option<bool> {
    let mut a = &all[..];
    let category = a.read_u8().ok()?;
    let fuel = a.read_u8().ok()?;
    let flags = a.read_u8().ok()?;
    let vehicles = a.read_u16::<LE>().ok()?;
    let leaving = a.read_u16::<LE>().ok()?;
    let share = a.read_u8().ok()?;
    let running = a.read_u8().ok()?;
    let warming = a.read_u8().ok()?;
    let idle = a.read_u32::<LE>().ok()?;
    let timed = a.read_u32::<LE>().ok()?;
    let mut lent = [0; 4];
    let mut distances = [0; 5];
    let mut days = [0; 13];
    let mut temperatures = [0; 13];
    let mut coefficients = [0; 43];
    a.read_exact(&mut lent).ok()?;
    a.read_u32_into::<LE>(&mut distances).ok()?;
    a.read_exact(&mut days).ok()?;
    a.read_i16_into::<LE>(&mut temperatures).ok()?;
    a.read_u32_into::<LE>(&mut coefficients).ok()?;
    Some(rules::tezhebul_group(
        category,
        fuel,
        flags,
        vehicles,
        leaving,
        share,
        running,
        warming,
        idle,
        timed,
        front(&distances, lent[0]),
        front(&days, lent[1]),
        front(&temperatures, lent[2]),
        front(&coefficients, lent[3]),
        out,
    ))
}
