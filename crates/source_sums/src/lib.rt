// What a source gives, added to a file's sums: to `Totals`, and in `lent` to numbers in memory that the caller lends.
#![tactic(auto)]

ghost use Rattle.std.specs.Prelude.{◌≡◌};
ghost use Rattle.vehicles.specs.Rules.{emission_count};
ghost use Rattle.vehicles.specs.Parts.{answer_in};
ghost use Rattle.locomotives.specs.Rules.{substance_count, locomotive_answer};
ghost use Rattle.source_sums.specs.Added.{plus_answer, record_answer, plus_one};

pub mod lent;

use locomotive_fields::Locomotive;
use slots::StoreRecord;
use sums::{Emission, Refusal};
use totals::Totals;
use vehicle_fields::{Coefficients, Group, POLLUTANTS};
use warmups::Climate;

// A group with its own coefficients, the `VehicleGroup` of the definitions. One value, as a chain's source is.
#[derive(Clone, Copy)]
pub struct GroupSource {
    pub group: Group,
    pub coefficients: [Coefficients; POLLUTANTS],
}

// A function for each kind of source: their rules have other arguments and answers, and what they share is `add_all`.

// Adds a group's emissions in a climate.
pub fn add_group(totals: &mut Totals, climate: Climate, source: GroupSource)
    ensures { totals.new ≡ plus_answer emission_count totals.old (answer_in source.group climate source.coefficients) }
{
    let answer = vehicles::emissions_in_climate(source.group, climate, source.coefficients);
    if let Ok(emissions) = answer {
        totals.add_all(emissions);
    }
}

// By the rule of the record's kind.
#[tactic(auto, unfolding(crate::specs::Added::record_answer))]
fn record_emission(store: StoreRecord) -> Result<Emission, Refusal>
    ensures { result ≡ record_answer store }
{
    match store {
        StoreRecord::Handling(h) => stores::handling_emission(h),
        StoreRecord::Standing(s) => stores::standing_emission(s),
        StoreRecord::Aspiration(a) => stores::aspiration_emission(a),
    }
}

// Adds a store record's emission.
pub fn add_store(totals: &mut Totals, store: StoreRecord)
    ensures { totals.new ≡ plus_one totals.old (record_answer store) }
{
    if let Ok(emission) = record_emission(store) {
        totals.add(emission);
    }
}

// Adds a locomotive's emissions.
pub fn add_locomotive(totals: &mut Totals, locomotive: Locomotive)
    ensures { totals.new ≡ plus_answer substance_count totals.old (locomotive_answer locomotive) }
{
    if let Ok(emissions) = locomotives::locomotive_emissions(locomotive) {
        totals.add_all(emissions);
    }
}
