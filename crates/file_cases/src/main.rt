// Runs the library on inventory files from standard input, and prints what it answers.
//
// A case is 4 bytes with the length of a file, 2 bytes with the length of a buffer, both
// little-endian, and the file. Where the buffer's length is 65,535 it prints what the program
// `inventory` would. Else it checks the file and prints `checked`, the number and the slot; lends
// a buffer of so many bytes, each of them `~`, to a listing, and prints `listed`, the number, the
// slot and the length, and on a line of its own the buffer as it is afterwards. A case that is cut
// off ends the run.
//
// tests/file_cases.py writes the cases, and works out what must be printed. What can't be written
// is left out, and the rest is printed all the same.
#![tactic(auto)]

use byteorder::{ByteOrder, LE};
use std::io::{Read, Stdin, Stdout, Write};
use sums::Refusal;

fn show(out: &mut Stdout, file: &[u8]) {
    let _ = out.write_all(listing::print(file).bytes());
}

// What was asked, the number and the slot of the refusal, or zeros of none: an `Option`'s text, and so no `Display` of `Refusal`.
fn told(out: &mut Stdout, asked: &str, refusal: Option<Refusal>) {
    let _ = match refusal {
        Some(r) => write!(out, "{asked} {} {}", u8::from(r.reason), r.slot),
        None => write!(out, "{asked} 0 0"),
    };
}

fn check(out: &mut Stdout, file: &[u8]) {
    told(out, "checked", walk::check(file).err());
    let _ = writeln!(out);
}

fn lend(out: &mut Stdout, file: &[u8], buffer: &mut [u8]) {
    let listed = listing::list(file, buffer);
    told(out, "listed", listed.err());
    // "A refused listing has length 0".
    let written = listed.map_or(0, |listing| listing.written);
    let _ = writeln!(out, " {written}");
    let _ = out.write_all(buffer);
    let _ = writeln!(out);
}

fn answer(out: &mut Stdout, file: &[u8], buffer: u16) {
    // No buffer that is lent is so long, so the number says that none is.
    if buffer == u16::MAX {
        show(out, file);
        return;
    }
    check(out, file);
    // More than the longest listing, so that a buffer can be lent that is longer than that.
    let mut room = [b'~'; 700];
    if let Some(lent) = room.get_mut(..usize::from(buffer)) {
        lend(out, file, lent);
    }
}

// Answers the next case, if all of it is there.
fn next_case(input: &mut Stdin, out: &mut Stdout) -> Option<()> {
    let mut head = [0; 6];
    // 64 bytes more than the longest file, so that a file can be a slot too long, which question 1 refuses. Made before the first return: behind it the compiler clears so
    // large an array twice.
    let mut room = [0; 65_600];
    input.read_exact(&mut head).ok()?;
    let length = usize::try_from(LE::read_u32(&head)).ok()?;
    let file = room.get_mut(..length)?;
    input.read_exact(file).ok()?;
    answer(out, file, LE::read_u16(&head[4..]));
    Some(())
}

// Nothing says that the input ends, so the cases are counted, up to a number that no run reaches.
fn main(rt: HostRuntime) {
    let mut input = rt.stdin();
    let mut out = rt.stdout();
    for _ in 0..u64::MAX {
        if next_case(&mut input, &mut out).is_none() {
            return;
        }
    }
}
