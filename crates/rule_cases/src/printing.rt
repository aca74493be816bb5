// Lines of the output. What can't be written is left out, and the rest is printed all the same.
use super::fields::Record;
use std::io::{Stdout, Write};
use sums::{Emission, Refusal, Sum, Unit};

pub(crate) fn text(out: &mut Stdout, bytes: &[u8]) {
    let _ = out.write_all(bytes);
}

// The record's first 32 bytes.
pub(crate) fn label(out: &mut Stdout, r: &Record) {
    text(out, &r[..32]);
    text(out, b" ");
}

// The number and the slot of a refusal, and zeros of an accepted source: an `Option`'s text, and so no `Display` of `Refusal`.
pub(crate) fn verdict(out: &mut Stdout, refusal: Option<Refusal>) {
    let _ = match refusal {
        Some(r) => writeln!(out, "{} {}", u8::from(r.reason), r.slot),
        None => writeln!(out, "0 0"),
    };
}

// Both sums and their figures.
pub(crate) fn sums(out: &mut Stdout, e: &Emission) {
    let annual = e.annual.printed();
    let peak = e.peak.printed();
    let _ = writeln!(
        out,
        "{} {} {} {} {} {}",
        annual.whole,
        annual.part,
        peak.whole,
        peak.part,
        e.annual.rounded(),
        e.peak.rounded()
    );
}

// Two loops, since a total has no code to print; what they share is `sums`.
pub(crate) fn all_sums(out: &mut Stdout, all: &[Emission]) {
    for e in all {
        sums(out, e);
    }
}

pub(crate) fn all_emissions(out: &mut Stdout, all: &[Emission]) {
    for e in all {
        let _ = write!(out, "{} ", e.code);
        sums(out, e);
    }
}

pub(crate) fn added(out: &mut Stdout, times: u16) {
    let _ = writeln!(out, "added {times}");
}

// A sum's words, and its printed units.
pub(crate) fn sum_line<U: Unit>(out: &mut Stdout, kind: &str, name: &str, s: Sum<U>) {
    let words = s.0;
    let printed = s.printed();
    let _ = writeln!(
        out,
        "{kind} {name} {} {} {} {}",
        words.high, words.low, printed.whole, printed.part
    );
}

pub(crate) fn figure(out: &mut Stdout, kind: &str, n: u64) {
    let _ = writeln!(out, "{kind} rounded {n}");
}
