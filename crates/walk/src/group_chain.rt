// The group chain.
ghost use Rattle.slots.specs.Layout.{group_slot_of};
ghost use Rattle.walk.specs.ThreeChains.{groups, group_source_at, plus_group};

use super::chain::Chain;
use super::headed::Headed;
use super::rows;
use slot_file::MOST_SLOTS;
use slots::{GroupSlot, Header};
use source_sums::GroupSource;
use sums::{Reason, Refusal};
use totals::Totals;
use warmups::Climate;

// With the climate that they are summed by.
#[derive(Clone, Copy)]
pub(crate) struct Groups {
    pub(crate) climate: Climate,
}

impl Chain for Groups {
    type Content = GroupSlot;

    type Source = GroupSource;

    ghost kind = { groups };

    ghost content_of = { group_slot_of };

    ghost source_at = { group_source_at };

    ghost plus = { λ g. plus_group g.climate };

    fn head(h: Header) -> u16 {
        h.heads.groups
    }

    #[inline(always)]
    fn read(bytes: &[u8], n: usize) -> Result<GroupSlot, Reason> {
        slots::read_group(bytes, n).map_err(|refused| refused.reason)
    }

    #[inline(always)]
    fn source(
        file: &Headed,
        reached: &mut [bool; MOST_SLOTS],
        link: u16,
        content: GroupSlot,
    ) -> Result<GroupSource, Refusal> {
        let coefficients = rows::read_rows(file, reached, link, content.first)?;
        let due = vehicle_fields::zero_where_due(content.group, coefficients);
        questions::ask(due, Reason::SootOrLead, link)?;
        Ok(GroupSource {
            group: content.group,
            coefficients,
        })
    }

    fn add(self, totals: &mut Totals, source: GroupSource) {
        source_sums::add_group(totals, self.climate, source);
    }
}
