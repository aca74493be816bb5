// One case: the rule of its kind is asked, and the answer printed.
ghost use Rattle.std.specs.Prelude.{◌+◌, ◌≤◌};

use super::fields::Record;
use super::totals::ByPlace;
use super::{fields, printing, totals};
use byteorder::{ByteOrder, LE};
use locomotives::SUBSTANCES;
use std::io::Stdout;
use sums::words::Words;
use sums::{Annual, Emission, Peak, Refusal, Sum, Unit};
use vehicles::EMISSIONS;

#[derive(Clone, Copy)]
enum Kind {
    Handling,
    Standing,
    Aspiration,
    Group,
    Sums,
    Locomotive,
}

impl From<u8> for Kind {
    // Sums have 5, and every number that no other kind has: each record has its lines, so this is no `TryFrom`.
    fn from(number: u8) -> Self {
        match number {
            1 => Self::Handling,
            2 => Self::Standing,
            3 => Self::Aspiration,
            4 => Self::Group,
            6 => Self::Locomotive,
            _ => Self::Sums,
        }
    }
}

// Prints the case's lines, and adds to the totals what it gives so often as it says.
pub(crate) fn run(out: &mut Stdout, r: &Record, totals: &mut ByPlace) {
    printing::label(out, r);
    match Kind::from(r[32]) {
        Kind::Handling => source(out, r, totals, handling(r)),
        Kind::Standing => source(out, r, totals, standing(r)),
        Kind::Aspiration => source(out, r, totals, aspiration(r)),
        Kind::Group => source(out, r, totals, group(r)),
        Kind::Sums => both_sums(out, r),
        Kind::Locomotive => source(out, r, totals, locomotive(r)),
    }
}

// What a store rule answers, as one emission of one.
fn one(answer: Result<Emission, Refusal>) -> Result<[Emission; 1], Refusal> {
    answer.map(|emission| [emission])
}

fn handling(r: &Record) -> Result<[Emission; 1], Refusal> {
    one(stores::handling_emission(fields::handling(r)))
}

fn standing(r: &Record) -> Result<[Emission; 1], Refusal> {
    one(stores::standing_emission(fields::standing(r)))
}

fn aspiration(r: &Record) -> Result<[Emission; 1], Refusal> {
    one(stores::aspiration_emission(fields::aspiration(r)))
}

fn group(r: &Record) -> Result<[Emission; EMISSIONS], Refusal> {
    vehicles::group_emissions(
        fields::group(r),
        fields::temperatures(r),
        fields::coefficients(r),
    )
}

fn locomotive(r: &Record) -> Result<[Emission; SUBSTANCES], Refusal> {
    locomotives::locomotive_emissions(fields::locomotive(r))
}

// A refused source gives nothing, in as many places as an accepted one has.
fn source<const N: usize>(
    out: &mut Stdout,
    r: &Record,
    totals: &mut ByPlace,
    answer: Result<[Emission; N], Refusal>,
) {
    let (refusal, emissions) = match answer {
        Ok(emissions) => (None, emissions),
        Err(refusal) => (Some(refusal), [Emission::none(); N]),
    };
    printing::verdict(out, refusal);
    printing::all_emissions(out, &emissions);
    let times = LE::read_u16(&r[34..]);
    if times > 0 {
        printing::added(out, times);
        add(out, totals, &emissions, times);
    }
}

// Each emission so many times over: a line, and an addend of the total in its place.
fn add(out: &mut Stdout, totals: &mut ByPlace, emissions: &[Emission], times: u16) {
    for (total, e) in totals.iter_mut().zip(emissions) {
        let sum = totals::repeated(*e, times);
        printing::sums(out, &sum);
        *total = totals::plus(*total, sum);
    }
}

// The words of a sum at a literal place of the record, the low one first.
fn words_at(r: &Record, at: usize) -> Words
    requires { at + 16 ≤ 320 }
{
    Words {
        high: LE::read_u64(&r[at + 8..]),
        low: LE::read_u64(&r[at..]),
    }
}

fn both_sums(out: &mut Stdout, r: &Record) {
    printing::text(out, b"sums\n");
    let a = words_at(r, 40);
    let b = words_at(r, 56);
    let k = LE::read_u32(&r[72..]);
    sums_of::<Annual>(out, "annual", a, b, k);
    sums_of::<Peak>(out, "peak", a, b, k);
}

// A word of exact units, two sums added up, a multiple, and a figure, of either kind of sum.
fn sums_of<U: Unit + Copy>(out: &mut Stdout, kind: &str, a: Words, b: Words, k: u32) {
    let sum = Sum::<U>::from(a);
    printing::sum_line(out, kind, "of", Sum::<U>::of(a.low));
    printing::sum_line(out, kind, "plus", sum.plus(Sum::<U>::from(b)));
    printing::sum_line(out, kind, "times", sum.times(k));
    printing::figure(out, kind, sum.rounded());
}
