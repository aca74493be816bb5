// What a source gives, added to a file's sums as numbers in memory that the caller lends, where they are wanted: the switch is the caller's, whose walk may have one.
ghost use Rattle.std.specs.Prelude.{◌≡◌};
ghost use Rattle.vehicles.specs.Parts.{answer_in};
ghost use Rattle.locomotives.specs.Rules.{locomotive_answer};
ghost use Rattle.source_sums.specs.Lent.{plus_group, plus_store, plus_locomotive};

use super::GroupSource;
use locomotive_fields::Locomotive;
use slots::StoreRecord;
use sums::Reason;
use warmups::Climate;

// Adds a group's emissions in a climate.
#[tactic(auto, unfolding(crate::specs::Lent::plus_group, sums::specs::Choice::if_then_else))]
pub fn add_group(totals: &mut [u64], summing: bool, climate: Climate, source: GroupSource)
    ensures { totals.new ≡ plus_group summing totals.old (answer_in source.group climate source.coefficients) }
{
    if !summing {
        return;
    }
    let answer = vehicles::emissions_in_climate(source.group, climate, source.coefficients);
    if let Ok(emissions) = answer {
        totals::add_all(totals, emissions);
    }
}

// Adds a store record's emission; of a slot that is refused, none.
#[tactic(auto, unfolding(crate::specs::Lent::plus_store, sums::specs::Choice::if_then_else))]
pub fn add_store(totals: &mut [u64], summing: bool, read: Result<StoreRecord, Reason>)
    ensures { totals.new ≡ plus_store summing totals.old read }
{
    if !summing {
        return;
    }
    if let Ok(store) = read {
        if let Ok(emission) = super::record_emission(store) {
            totals::add(totals, emission);
        }
    }
}

// Adds a locomotive's emissions.
#[tactic(auto, unfolding(crate::specs::Lent::plus_locomotive, sums::specs::Choice::if_then_else))]
pub fn add_locomotive(totals: &mut [u64], summing: bool, locomotive: Locomotive)
    ensures { totals.new ≡ plus_locomotive summing totals.old (locomotive_answer locomotive) }
{
    if !summing {
        return;
    }
    if let Ok(emissions) = locomotives::locomotive_emissions(locomotive) {
        totals::add_all(totals, emissions);
    }
}
