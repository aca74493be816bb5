// Whether a walk sums what it passes, as a type, so that a check has no code that adds.
ghost use Rattle.std.specs.Prelude.{◌≡◌, Bool, true, false};
ghost use Rattle.sums.specs.Choice.{if_then_else};
ghost use Rattle.warmups.specs.Parts.{climate_of};

use super::chain::Chain;
use slots::Header;
use totals::Totals;
use warmups::Climate;

pub(crate) trait Summing {
    ghost wanted: { Bool };

    // The climate that groups are summed by; any where none are: no group asks for it then, so an `Option` would have a case that never is.
    fn climate(h: Header) -> Climate
        ensures { wanted ≡ true → (h.heads.groups ≡ 0 → ⊥) → result ≡ climate_of h.temperatures };

    // Adds a source of a chain to the sums, or drops it.
    fn add<C: Chain>(chain: C, totals: &mut Totals, source: C::Source)
        ensures { totals.new ≡ if_then_else wanted (C.plus chain totals.old source) totals.old };
}

pub(crate) struct Summed;

pub(crate) struct Unsummed;

const NO_CLIMATE: Climate = Climate {
    bands: [0; 12],
    coldest: 0,
};

#[tactic(auto, unfolding(sums::specs::Choice::if_then_else))]
impl Summing for Summed {
    ghost wanted = { true };

    fn climate(h: Header) -> Climate {
        if h.heads.groups == 0 {
            return NO_CLIMATE;
        }
        warmups::climate_of(h.temperatures)
    }

    fn add<C: Chain>(chain: C, totals: &mut Totals, source: C::Source) {
        chain.add(totals, source);
    }
}

#[tactic(auto, unfolding(sums::specs::Choice::if_then_else))]
impl Summing for Unsummed {
    ghost wanted = { false };

    fn climate(_h: Header) -> Climate {
        NO_CLIMATE
    }

    fn add<C: Chain>(_chain: C, _totals: &mut Totals, _source: C::Source) {}
}
