// The locomotive chain, after the groups and the store records.
ghost use Rattle.slots.specs.Layout.{locomotive_slot_of};
ghost use Rattle.walk.specs.ThreeChains.{locomotives, plus_locomotive};
ghost use Rattle.slot_file.specs.Sources.{locomotive_at};

use super::chain::Chain;
use super::headed::Headed;
use locomotive_fields::Locomotive;
use slot_file::MOST_SLOTS;
use slots::{Header, LocomotiveSlot};
use sums::{Reason, Refusal};
use totals::Totals;

#[derive(Clone, Copy)]
pub(crate) struct Locomotives;

impl Chain for Locomotives {
    type Content = LocomotiveSlot;

    type Source = Locomotive;

    ghost kind = { locomotives };

    ghost content_of = { locomotive_slot_of };

    ghost source_at = { locomotive_at };

    ghost plus = { λ _. plus_locomotive };

    fn head(h: Header) -> u16 {
        h.heads.locomotives
    }

    #[inline(always)]
    fn read(bytes: &[u8], n: usize) -> Result<LocomotiveSlot, Reason> {
        slots::read_locomotive(bytes, n).map_err(|refused| refused.reason)
    }

    #[inline(always)]
    fn source(
        _file: &Headed,
        _reached: &mut [bool; MOST_SLOTS],
        link: u16,
        content: LocomotiveSlot,
    ) -> Result<Locomotive, Refusal> {
        let whole = locomotive_fields::shares_add_up(content.locomotive);
        questions::ask(whole, Reason::Shares, link)?;
        Ok(content.locomotive)
    }

    fn add(self, totals: &mut Totals, source: Locomotive) {
        source_sums::add_locomotive(totals, source);
    }
}
