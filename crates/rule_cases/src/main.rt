// Runs the source rules and the sums on cases from standard input, and prints what they answer.
//
// A case is a record of 320 bytes, numbers little-endian:
//
//     0..31   label, ASCII, padded with spaces
//     32      kind: 1 handling, 2 standing, 3 aspiration, 4 group, 5 sums, 6 locomotive
//     34..35  how often the answer is added to the totals
//     1, 2:   40 dust, 41 material, 42..43 store, 44..45 wind, 46..47 moisture, 48..49 grain,
//             50 openness, 51 drop class, 52..55 amount, 56..57 K6
//     3:      40 dust, 42..43 store, 44..47 concentration, 48..51 flow, 52..53 capture,
//             54..55 hours
//     4:      40 category, 41 fuel, 42 control, 43 heated, 44..45 N, 46..47 N', 48 share,
//             49 neutraliser for run and idle, 50 for warm-up, 52..55 idle time,
//             56..59 timed warm-up, 60..75 four distances, 76..87 days, 88..111 temperatures
//             (signed), 112..279 six pollutants of seven coefficients
//     5:      40..55 exact units of a sum and 56..71 of another, 72..75 factor
//     6:      40 model, 41 old, 42 zone, 44..53 five shares, 54..55 hours
//
// Of a source it prints the label, verdict and slot, then a line for each emission, one for a store
// record, six for a group, three for a locomotive: code, annual whole and part, peak whole and part,
// annual and peak figure. Where the source is added to the totals, the lines follow of its emissions
// added up so often, with no code. Of sums it prints, for either type, `of` the first's low word,
// the sum, the product of the first and the factor, each as high word, low word, whole and part, and
// the figure of the first. The totals come last, in six places, of which a store record has the
// first and a locomotive the first three. A record that is cut off is left out.
//
// tests/rule_cases.py writes the cases, and works out what must be printed. The run takes more steps
// than the interpreter of `rt try` allows; compiled it takes a moment.
#![tactic(auto)]

mod case;
mod fields;
mod printing;
mod totals;

use fields::Record;
use std::io::{Read, Stdin};
use sums::Emission;
use vehicles::EMISSIONS;

// The next record, if all of it is there.
fn next_record(input: &mut Stdin) -> Option<Record> {
    let mut record = [0; 320];
    input.read_exact(&mut record).ok()?;
    Some(record)
}

// Nothing says that the input ends, so the cases are counted, up to a number that no run reaches.
fn main(rt: HostRuntime) {
    let mut input = rt.stdin();
    let mut out = rt.stdout();
    let mut totals = [Emission::none(); EMISSIONS];
    for _ in 0..u64::MAX {
        let Some(record) = next_record(&mut input) else {
            break;
        };
        case::run(&mut out, &record, &mut totals);
    }
    printing::text(&mut out, b"totals\n");
    printing::all_sums(&mut out, &totals);
}
