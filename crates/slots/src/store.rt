// A store record's slot.
ghost use Rattle.std.specs.Prelude.{◌≡◌};
ghost use Rattle.slots.specs.Bytes.{slot_of};
ghost use Rattle.slots.specs.Layout.{bulk_of, handling_of, handling_good, standing_of, standing_good, aspiration_of, aspiration_good, StoreReads};

use super::slot::{Content, Slot};
use super::{numbers, slot};
use store_records::{Aspiration, Bulk, Handling, Standing};
use sums::Reason;

#[derive(Clone, Copy)]
pub enum StoreRecord {
    Handling(Handling),
    Standing(Standing),
    Aspiration(Aspiration),
}

#[tactic(auto, unfolding(crate::specs::Layout::bulk_of))]
fn bulk_of(t: &Slot) -> Bulk
    ensures { result ≡ bulk_of t.now }
{
    Bulk {
        dust: t[3],
        store: numbers::u16_at(t, 4),
        material: t[6],
        wind: numbers::u16_at(t, 8),
        moisture: numbers::u16_at(t, 10),
        grain: numbers::u16_at(t, 12),
        openness: t[14],
        amount: numbers::u32_at(t, 20),
    }
}

#[tactic(auto, unfolding(crate::specs::Layout::handling_of, crate::specs::Layout::handling_good))]
impl Content for Handling {
    ghost KIND = { 3 };

    ghost fields = { handling_of };

    ghost good = { handling_good };

    const KIND: u8 = 3;

    fn fields(t: &Slot) -> Self {
        Self {
            bulk: bulk_of(t),
            drop: t[15],
        }
    }

    fn good(self, t: &Slot) -> bool {
        store_records::handling_in_range(self)
            & (t[7] == 0)
            & numbers::zero_in(t, 16..20)
            & numbers::zero_in(t, 24..64)
    }

    ghost kind_is_named = { λ e. Prim.cc };
}

#[tactic(auto, unfolding(crate::specs::Layout::standing_of, crate::specs::Layout::standing_good))]
impl Content for Standing {
    ghost KIND = { 4 };

    ghost fields = { standing_of };

    ghost good = { standing_good };

    const KIND: u8 = 4;

    fn fields(t: &Slot) -> Self {
        Self {
            bulk: bulk_of(t),
            k6: numbers::u16_at(t, 16),
        }
    }

    fn good(self, t: &Slot) -> bool {
        store_records::standing_in_range(self)
            & (t[7] == 0)
            & (t[15] == 0)
            & numbers::zero_in(t, 18..20)
            & numbers::zero_in(t, 24..64)
    }

    ghost kind_is_named = { λ e. Prim.cc };
}

#[tactic(auto, unfolding(crate::specs::Layout::aspiration_of, crate::specs::Layout::aspiration_good))]
impl Content for Aspiration {
    ghost KIND = { 5 };

    ghost fields = { aspiration_of };

    ghost good = { aspiration_good };

    const KIND: u8 = 5;

    fn fields(t: &Slot) -> Self {
        Self {
            dust: t[3],
            store: numbers::u16_at(t, 4),
            concentration: numbers::u32_at(t, 8),
            flow: numbers::u32_at(t, 12),
            capture: numbers::u16_at(t, 16),
            hours: numbers::u16_at(t, 18),
        }
    }

    fn good(self, t: &Slot) -> bool {
        store_records::aspiration_in_range(self)
            & numbers::zero_in(t, 6..8)
            & numbers::zero_in(t, 20..64)
    }

    ghost kind_is_named = { λ e. Prim.cc };
}

// What slot n of a file holds as a store record.
#[inline(always)]
pub fn read_store(file: &[u8], n: usize) -> Result<StoreRecord, Reason>
    ensures { StoreReads (slot_of file.now n) result }
{
    match slot::kind_of(file, n) {
        Some(Handling::KIND) => slot::read(file, n).map(StoreRecord::Handling),
        Some(Standing::KIND) => slot::read(file, n).map(StoreRecord::Standing),
        _ => slot::read(file, n).map(StoreRecord::Aspiration),
    }
}
