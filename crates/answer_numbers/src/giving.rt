// The numbers of an answer at the start of `out`; false, and nothing written, where it has room for fewer: a `bool`, as the C interface hands it over.
ghost use Rattle.answer_numbers.specs.Numbers.{numbers_of, answer_size, store_numbers, store_size, group_numbers, group_size, locomotive_numbers, locomotive_size, Given};

use super::numbers;
use super::numbers::ANSWER_SIZE;
use locomotives::SUBSTANCES;
use slot_file::Answer;
use sums::{Emission, Refusal};
use vehicles::EMISSIONS;

// Of a file's answer.
pub fn give_answer(a: Result<Answer, Refusal>, out: &mut [u64]) -> bool
    ensures { Given answer_size (numbers_of a) out.old result out.new }
{
    match a {
        Ok(a) => numbers::give(&numbers::numbers_of(a), out),
        Err(r) => numbers::give_refusal(r, ANSWER_SIZE, out),
    }
}

// A function for each rule: `give_rule` is the one body, but it asks that the emissions are few, and no public function may ask anything.

// Of what a store rule answers. Not by `map`: what its closure gives wants a proof by hand, and this none.
pub fn give_store(store: Result<Emission, Refusal>, out: &mut [u64]) -> bool
    ensures { Given store_size (store_numbers store) out.old result out.new }
{
    match store {
        Ok(emission) => numbers::give_rule(Ok([emission]), out),
        Err(r) => numbers::give_rule::<1>(Err(r), out),
    }
}

// Of what the rule of vehicle groups answers.
pub fn give_group(group: Result<[Emission; EMISSIONS], Refusal>, out: &mut [u64]) -> bool
    ensures { Given group_size (group_numbers group) out.old result out.new }
{
    numbers::give_rule(group, out)
}

// Of what the rule of locomotives answers.
pub fn give_locomotive(locomotive: Result<[Emission; SUBSTANCES], Refusal>, out: &mut [u64]) -> bool
    ensures { Given locomotive_size (locomotive_numbers locomotive) out.old result out.new }
{
    numbers::give_rule(locomotive, out)
}
