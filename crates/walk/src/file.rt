// A whole file: its check and its answer, by one walk over its chains.
ghost use Rattle.std.specs.Prelude.{◌≡◌};
ghost use Rattle.slot_file.specs.Questions.{head_asks};
ghost use Rattle.slot_file.specs.Meaning.{AllYes};
ghost use Rattle.slot_file.specs.Walk.{outcome, told};
ghost use Rattle.slot_file.specs.Figures as figures;
ghost use Rattle.walk.specs.OnePass.{FileWalked};

use super::chain::walk_chain;
use super::group_chain::Groups;
use super::headed::Headed;
use super::locomotive_chain::Locomotives;
use super::reached;
use super::state::State;
use super::store_chain::Stores;
use super::summing::{Summed, Summing, Unsummed};
use slot_file::{Answer, Counts};
use sums::Refusal;
use totals::{Figures, Totals};

// Questions 6 to 12 and 14 in order; where nothing is refused, the counts, and the sums where they are wanted. That 1 to 5 are answered yes is no fact of `Headed`, whose
// ghosts are equations and orders. Apart from the head, which is inlined: in one function the two clear the state twice.
fn walk_chains<S: Summing>(file: &Headed) -> Result<(Counts, Totals), Refusal>
    requires { AllYes (head_asks file.now.bytes.now) }
    ensures { FileWalked file.now.bytes.now S.wanted result }
{
    let climate = S::climate(file.header);
    let mut state = State::start();
    let groups = walk_chain::<Groups, S>(Groups { climate }, file, &mut state)?;
    let stores = walk_chain::<Stores, S>(Stores, file, &mut state)?;
    let locomotives = walk_chain::<Locomotives, S>(Locomotives, file, &mut state)?;
    reached::ask_reached(file, &state.reached)?;
    let counts = Counts {
        groups,
        stores,
        locomotives,
    };
    Ok((counts, state.totals))
}

// Questions 1 to 12 and 14 in order.
fn walk_file<S: Summing>(bytes: &[u8]) -> Result<(Counts, Totals), Refusal>
    ensures { FileWalked bytes.now S.wanted result }
{
    let file = Headed::of(bytes)?;
    walk_chains::<S>(&file)
}

// Whether a file is accepted, and else the refusal of the first question that is answered no.
pub fn check(file: &[u8]) -> Result<(), Refusal>
    ensures { result ≡ told (outcome file.now) }
{
    walk_file::<Unsummed>(file)?;
    Ok(())
}

// The figures and the counts of an accepted file, or its refusal.
pub fn answer(file: &[u8]) -> Result<Answer, Refusal>
    ensures { result ≡ figures.answer file.now }
{
    let (counts, totals) = walk_file::<Summed>(file)?;
    let Figures { annual, peak } = totals.figures();
    Ok(Answer {
        annual,
        peak,
        counts,
    })
}
