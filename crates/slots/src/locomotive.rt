// A locomotive's slot.
ghost use Rattle.std.specs.Prelude.{◌≡◌};
ghost use Rattle.slots.specs.Bytes.{slot_of};
ghost use Rattle.slots.specs.Layout.{shares_of, locomotive_of, locomotive_good, locomotive_slot_of, locomotive_read};

use super::slot::{Content, RefusedSlot, Slot};
use super::{numbers, slot};
use locomotive_fields::{Locomotive, MODES};
use std::array;

// The fields and the next index.
#[derive(Clone, Copy)]
pub struct LocomotiveSlot {
    pub locomotive: Locomotive,
    pub next: u16,
}

#[tactic(auto, unfolding(crate::specs::Layout::shares_of, sums::specs::Choice::list_to))]
fn shares_of(t: &Slot) -> [u16; MODES]
    ensures { result ≡ shares_of t.now }
{
    array::from_fn(|k| numbers::u16_at(t, 4 + 2 * k))
}

#[tactic(auto, unfolding(crate::specs::Layout::locomotive_of))]
fn locomotive_of(t: &Slot) -> Locomotive
    ensures { result ≡ locomotive_of t.now }
{
    Locomotive {
        model: t[3],
        shares: shares_of(t),
        hours: numbers::u16_at(t, 14),
        old: t[16],
        zone: t[17],
    }
}

#[tactic(auto, unfolding(crate::specs::Layout::locomotive_slot_of, crate::specs::Layout::locomotive_good))]
impl Content for LocomotiveSlot {
    ghost KIND = { 6 };

    ghost fields = { locomotive_slot_of };

    ghost good = { λ t s. locomotive_good t s.locomotive };

    const KIND: u8 = 6;

    fn fields(t: &Slot) -> Self {
        Self {
            locomotive: locomotive_of(t),
            next: numbers::u16_at(t, 0),
        }
    }

    fn good(self, t: &Slot) -> bool {
        locomotive_fields::locomotive_in_range(self.locomotive) & numbers::zero_in(t, 18..64)
    }

    ghost kind_is_named = { λ e. Prim.cc };
}

// What slot n of a file holds as a locomotive.
#[tactic(auto, unfolding(crate::specs::Layout::locomotive_read, crate::specs::Layout::locomotive_slot_of))]
#[inline(always)]
pub fn read_locomotive(file: &[u8], n: usize) -> Result<LocomotiveSlot, RefusedSlot<LocomotiveSlot>>
    ensures { result ≡ locomotive_read (slot_of file.now n) }
{
    slot::read_or_fields(file, n)
}
