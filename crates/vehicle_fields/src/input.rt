// What the rule of vehicle groups asks of a group and its coefficients, before it works anything out. They are two parameters here and of the rule, as 01 names them and a
// caller of the rule has them.
ghost use Rattle.std.specs.Prelude.{◌≡◌};
ghost use Rattle.vehicle_fields.specs.Fields.{source_in_range};
ghost use Rattle.vehicle_fields.specs.SootAndLead.{zero_where_due};

use super::group;
use super::group::{Coefficients, Group, POLLUTANTS};

// A group, and the coefficients of each pollutant.
#[tactic(auto, unfolding(crate::specs::Fields::source_in_range))]
pub fn source_in_range(g: Group, ks: [Coefficients; POLLUTANTS]) -> bool
    ensures { result ≡ source_in_range g ks }
{
    group::group_in_range(g) & group::all_in_range(ks)
}

// Whether the soot of a petrol group, and the lead of a diesel one, are zero throughout. A fuel that is neither owes no zeros.
#[tactic(auto, unfolding(crate::specs::SootAndLead::zero_where_due))]
pub fn zero_where_due(g: Group, ks: [Coefficients; POLLUTANTS]) -> bool
    ensures { result ≡ zero_where_due g ks }
{
    ((g.fuel != 1) | group::all_zero(ks[3])) & ((g.fuel != 2) | group::all_zero(ks[5]))
}
