// Answers as numbers, and numbers in a caller's memory.
ghost use Rattle.std.specs.Prelude.{◌≡◌, ◌≤◌, length, Ok};
ghost use Rattle.vehicles.specs.Rules.{emission_count};
ghost use Rattle.answer_numbers.specs.Numbers.{Given, numbers_of, emission_numbers, rule_numbers, rule_size, refusal_numbers};

use slot_file::{Answer, COUNT};
use sums::{Emission, Refusal};

// How many numbers there are of an answer, and of an emission.
pub(crate) const ANSWER_SIZE: usize = 5 + 2 * COUNT;

const EMISSION_SIZE: usize = 5;

// Numbers at the start of `out`; false, and nothing written, where it has room for fewer: a `bool`, as `giving` hands it to the C interface, here and below. The length is
// tested and the range written by itself: std does not say what a slice ends as that was written through `get_mut`, and of `split_at_mut_checked`, where it does, the
// search finds no proof.
#[tactic(auto, unfolding(crate::specs::Numbers::into, sums::specs::Choice::if_then_else))]
pub(crate) fn give(numbers: &[u64], out: &mut [u64]) -> bool
    ensures { Given (length numbers.now) numbers.now out.old result out.new }
{
    if out.len() < numbers.len() {
        return false;
    }
    out[..numbers.len()].copy_from_slice(numbers);
    true
}

// So many numbers of a refusal in the same way: its number, its slot, and zeros. No answer has fewer than two numbers, which only its callers know.
#[tactic(auto, unfolding(crate::specs::Numbers::into, sums::specs::Choice::if_then_else))]
pub(crate) fn give_refusal(r: Refusal, size: usize, out: &mut [u64]) -> bool
    requires { 2 ≤ size }
    ensures { Given size (refusal_numbers size r) out.old result out.new }
{
    if out.len() < size {
        return false;
    }
    out[..size].fill(0);
    out[0] = u64::from(u8::from(r.reason));
    out[1] = u64::from(r.slot);
    true
}

// Of an accepted file's answer.
pub(crate) fn numbers_of(a: Answer) -> [u64; ANSWER_SIZE]
    ensures { result ≡ numbers_of (Ok a) }
{
    let mut numbers = [0; ANSWER_SIZE];
    numbers[2] = u64::from(a.counts.groups);
    numbers[3] = u64::from(a.counts.stores);
    numbers[4] = u64::from(a.counts.locomotives);
    numbers[5..5 + COUNT].copy_from_slice(&a.annual);
    numbers[5 + COUNT..].copy_from_slice(&a.peak);
    numbers
}

fn emission_numbers(e: Emission) -> [u64; EMISSION_SIZE]
    ensures { result ≡ emission_numbers e }
{
    let annual = e.annual.printed();
    let peak = e.peak.printed();
    [
        u64::from(e.code),
        annual.whole,
        annual.part,
        peak.whole,
        peak.part,
    ]
}

// Two zeros and the numbers of the emissions, likewise: of so few that their count fits. What bounds it is how many a source gives, a constant at each call.
#[tactic(auto, unfolding(crate::specs::Numbers::into, sums::specs::Choice::if_then_else))]
fn give_emissions(es: &[Emission], out: &mut [u64]) -> bool
    requires { length es.now ≤ emission_count }
    ensures { Given (rule_size (length es.now)) (rule_numbers (length es.now) (Ok es.now)) out.old result out.new }
{
    if out.len() < 2 + EMISSION_SIZE * es.len() {
        return false;
    }
    out[0] = 0;
    out[1] = 0;
    // Not by `chunks_exact_mut`, since std does not say what the slice ends as whose chunks were written.
    for (i, e) in es.iter().enumerate() {
        let at = 2 + EMISSION_SIZE * i;
        out[at..at + EMISSION_SIZE].copy_from_slice(&emission_numbers(*e));
    }
    true
}

// The numbers of what a rule answers, likewise.
pub(crate) fn give_rule<const N: usize>(a: Result<[Emission; N], Refusal>, out: &mut [u64]) -> bool
    requires { N ≤ emission_count }
    ensures { Given (rule_size N) (rule_numbers N a.entry) out.old result out.new }
{
    match a {
        Ok(es) => give_emissions(&es, out),
        Err(r) => give_refusal(r, 2 + EMISSION_SIZE * N, out),
    }
}
