// Numbers in the 64 bytes of a slot, little-endian, and bytes that are zero.
ghost use Rattle.std.specs.Prelude.{◌≡◌, ℕ, ◌+◌, ◌-◌, ◌≤◌, Bool, true, ◌&&◌, eqb};
ghost use Rattle.std.specs.List.{fold};
ghost use Rattle.slots.specs.Bytes.{slot_size, u16_at, u32_at, i16_at, zero_from};

use super::slot::Slot;
use std::ops::Range;

// Where a number stands is a literal at each call, or worked out from one, so a contract asks it and no type holds it. Three widths and no generic one: the library has a
// `from_le_bytes` for each and no trait over them.
pub(crate) fn u16_at(t: &Slot, at: usize) -> u16
    requires { at + 2 ≤ slot_size }
    ensures { result ≡ u16_at t.now at }
{
    u16::from_le_bytes([t[at], t[at + 1]])
}

pub(crate) fn u32_at(t: &Slot, at: usize) -> u32
    requires { at + 4 ≤ slot_size }
    ensures { result ≡ u32_at t.now at }
{
    u32::from_le_bytes([t[at], t[at + 1], t[at + 2], t[at + 3]])
}

pub(crate) fn i16_at(t: &Slot, at: usize) -> i16
    requires { at + 2 ≤ slot_size }
    ensures { result ≡ i16_at t.now at }
{
    i16::from_le_bytes([t[at], t[at + 1]])
}

// `fold` and not `all`, which has a branch between the bytes; each slot is asked.
fn are_zero(bytes: &[u8]) -> bool
    ensures { result ≡ fold (λ (zero : Bool) (b : ℕ). zero && eqb b 0) true bytes.now }
{
    bytes.iter().fold(true, |zero, b| zero & (*b == 0))
}

// Whether the bytes at these places, literals too, are zero.
pub(crate) fn zero_in(t: &Slot, places: Range<usize>) -> bool
    requires ordered { places.start ≤ places.end }
    requires inside { places.end ≤ slot_size }
    ensures { result ≡ zero_from t.now places.start (places.end - places.start) }
{
    are_zero(&t[places])
}
