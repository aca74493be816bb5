// The store chain, after the groups.
ghost use Rattle.slots.specs.Layout.{store_of};
ghost use Rattle.walk.specs.ThreeChains.{stores, plus_store};
ghost use Rattle.slot_file.specs.Sources.{store_at};

use super::chain::Chain;
use super::headed::Headed;
use slot_file::MOST_SLOTS;
use slots::{Header, StoreRecord};
use sums::{Reason, Refusal};
use totals::Totals;

#[derive(Clone, Copy)]
pub(crate) struct Stores;

impl Chain for Stores {
    type Content = StoreRecord;

    type Source = StoreRecord;

    ghost kind = { stores };

    ghost content_of = { store_of };

    ghost source_at = { store_at };

    ghost plus = { λ _. plus_store };

    fn head(h: Header) -> u16 {
        h.heads.stores
    }

    #[tactic(auto, unfolding(slots::specs::Layout::store_read))]
    #[inline(always)]
    fn read(bytes: &[u8], n: usize) -> Result<StoreRecord, Reason> {
        slots::read_store(bytes, n)
    }

    // No more is asked of it.
    #[tactic(auto, unfolding(slot_file::specs::Sources::store_at))]
    #[inline(always)]
    fn source(
        _file: &Headed,
        _reached: &mut [bool; MOST_SLOTS],
        _link: u16,
        content: StoreRecord,
    ) -> Result<StoreRecord, Refusal> {
        Ok(content)
    }

    fn add(self, totals: &mut Totals, source: StoreRecord) {
        source_sums::add_store(totals, source);
    }
}
