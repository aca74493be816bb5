// Slot 0.
ghost use Rattle.std.specs.Prelude.{◌≡◌};
ghost use Rattle.slots.specs.Bytes.{slot_of};
ghost use Rattle.slots.specs.Layout.{temperatures_of, header_of};

use super::slot::Slot;
use super::{numbers, slot};
use std::array;

// The first slot of each chain, or 0.
#[derive(Clone, Copy)]
pub struct Heads {
    pub groups: u16,
    pub stores: u16,
    pub locomotives: u16,
}

// The format number, the count of slots, the chains' heads, the temperatures, and whether the other bytes are zero: a flag, since question 4 comes after 2 and 3, which go
// by the other fields.
#[derive(Clone, Copy)]
pub struct Header {
    pub format: u16,
    pub count: u16,
    pub heads: Heads,
    pub temperatures: [i16; 12],
    pub rest: bool,
}

#[tactic(auto, unfolding(crate::specs::Layout::temperatures_of, crate::specs::Bytes::i16_at, sums::specs::Choice::list_to))]
fn temperatures_of(t: &Slot) -> [i16; 12]
    ensures { result ≡ temperatures_of t.now }
{
    array::from_fn(|m| numbers::i16_at(t, 8 + 2 * m))
}

// What slot 0 of a file holds. Inlined, as what reads a source's slot is.
#[tactic(auto, unfolding(crate::specs::Layout::header_of))]
#[inline(always)]
pub fn read_header(file: &[u8]) -> Header
    ensures { result ≡ header_of (slot_of file.now 0) }
{
    let t = &slot::bytes_of(file, 0);
    Header {
        format: numbers::u16_at(t, 0),
        count: numbers::u16_at(t, 2),
        heads: Heads {
            groups: numbers::u16_at(t, 4),
            stores: numbers::u16_at(t, 6),
            locomotives: numbers::u16_at(t, 32),
        },
        temperatures: temperatures_of(t),
        rest: numbers::zero_in(t, 34..64),
    }
}
