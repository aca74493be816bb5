// Calls each function that the library `tezhebul` exports, on cases from standard input, and prints what it returns and the memory that was lent to it.
//
// A case is a head of 44 bytes and its arguments, numbers little-endian, other bytes zero:
//
//     0..31   label, ASCII, padded with spaces
//     32      function: 1 check, 2 answer, 3 list, 4 handling, 5 standing, 6 aspiration, 7 group, 8 locomotive
//     34..35  how many numbers are lent, of 40
//     36..37  how many bytes are lent, of 600
//     40..43  the length of the arguments
//
// The arguments of 1 to 3 are a file. Those of 4 to 8 are the numbers before the first slice, in the order and with the widths that include/tezhebul.h has them in; those
// of a group go on with the lengths of its four slices, a byte each, and then the slices, with room for one element more than each has to have: 5 distances, 13 days, 13
// temperatures, 43 coefficients.
//
// Of a case it prints the label, what the function returns (1 for true, 0 for false) and all 40 numbers, which are 7,777 beforehand; of a list then, on a line of its own,
// all 600 bytes, each of them `~` beforehand. So it is seen too what a call leaves as it was. A case that is cut off ends the run.
//
// tests/interface_cases.py writes the cases, and works out what must be printed.
#![tactic(auto)]

mod arguments;
mod calls;

use arguments::{Function, Head, Room};
use std::io::{Read, Stdin, Stdout, Write};

// The first 32 bytes of a case.
fn label(out: &mut Stdout, start: &[u8; 44]) {
    let _ = out.write_all(&start[..32]);
}

// Both memories whole. What can't be written is left out, and the rest is printed all the same.
fn show(out: &mut Stdout, function: Function, numbers: &[u64], bytes: &[u8]) {
    for n in numbers {
        let _ = write!(out, " {n}");
    }
    let _ = writeln!(out);
    if function == Function::List {
        let _ = out.write_all(bytes);
        let _ = writeln!(out);
    }
}

// What the call returns that is lent the front of both memories; nothing, where one of them has not as much.
fn lend(head: Head, file: &[u8], all: &Room, numbers: &mut [u64], bytes: &mut [u8]) -> Option<u64> {
    let buffer = bytes.get_mut(..head.bytes)?;
    let out = numbers.get_mut(..head.numbers)?;
    calls::call(head.function, file, all, buffer, out)
}

// Calls, and prints what is returned and what both memories are after it.
fn run(out: &mut Stdout, head: Head, file: &[u8], all: &Room) {
    let mut numbers = [7_777; 40];
    let mut bytes = [b'~'; 600];
    if let Some(returned) = lend(head, file, all, &mut numbers, &mut bytes) {
        let _ = write!(out, " {returned}");
    }
    show(out, head.function, &numbers, &bytes);
}

// Runs the next case, if all of it is there.
fn next_case(input: &mut Stdin, out: &mut Stdout) -> Option<()> {
    let mut start = [0; 44];
    // Made before the first return: behind it the compiler clears so large an array twice.
    let mut all = [0; slot_file::MOST_BYTES];
    input.read_exact(&mut start).ok()?;
    let head = Head::from(&start);
    input.read_exact(all.get_mut(..head.length)?).ok()?;
    label(out, &start);
    run(out, head, &all[..head.length], &all);
    Some(())
}

// Nothing says that the input ends, so the cases are counted, up to a number that no run reaches.
fn main(rt: HostRuntime) {
    let mut input = rt.stdin();
    let mut out = rt.stdout();
    for _ in 0..u64::MAX {
        if next_case(&mut input, &mut out).is_none() {
            return;
        }
    }
}
