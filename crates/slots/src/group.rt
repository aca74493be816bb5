// A group's slot.
ghost use Rattle.std.specs.Prelude.{◌≡◌, ◌+◌, ◌≤◌};
ghost use Rattle.slots.specs.Bytes.{slot_size, slot_of};
ghost use Rattle.slots.specs.Layout.{days_of, distances_at, group_of, group_good, group_slot_of, group_read};

use super::slot::{Content, RefusedSlot, Slot};
use super::{numbers, slot};
use std::array;
use vehicle_fields::{Distances, Group, Minutes, Neutraliser};

// The fields, the next index and the first coefficient slot.
#[derive(Clone, Copy)]
pub struct GroupSlot {
    pub group: Group,
    pub next: u16,
    pub first: u16,
}

#[tactic(auto, unfolding(crate::specs::Layout::days_of, sums::specs::Choice::list_to))]
fn days_of(t: &Slot) -> [u8; 12]
    ensures { result ≡ days_of t.now }
{
    array::from_fn(|m| t[22 + m])
}

// At a literal, as the numbers are.
#[tactic(auto, unfolding(crate::specs::Layout::distances_at, vehicle_fields::specs::Fields::distances_from))]
fn distances_at(t: &Slot, at: usize) -> Distances
    requires { at + 4 ≤ slot_size }
    ensures { result ≡ distances_at t.now at }
{
    Distances::from([
        u32::from(numbers::u16_at(t, at)),
        u32::from(numbers::u16_at(t, at + 2)),
    ])
}

// The two flags are taken apart where the C interface hands them over too: shared, two remainders would be a public function.
#[tactic(auto, unfolding(crate::specs::Layout::group_of))]
fn group_of(t: &Slot) -> Group
    ensures { result ≡ group_of t.now }
{
    Group {
        category: t[3],
        fuel: t[4],
        controlled: t[5] % 2 == 1,
        heated: t[5] / 2 % 2 == 1,
        vehicles: numbers::u16_at(t, 6),
        leaving: numbers::u16_at(t, 8),
        share: t[10],
        neutraliser: Neutraliser {
            running: t[11],
            warming: t[12],
        },
        idle: Minutes(u32::from(t[13])),
        outward: distances_at(t, 14),
        inward: distances_at(t, 18),
        days: days_of(t),
        timed: Minutes(u32::from(t[36])),
    }
}

#[tactic(auto, unfolding(crate::specs::Layout::group_slot_of, crate::specs::Layout::group_good))]
impl Content for GroupSlot {
    ghost KIND = { 1 };

    ghost fields = { group_slot_of };

    ghost good = { λ t s. group_good t s.group };

    const KIND: u8 = 1;

    fn fields(t: &Slot) -> Self {
        Self {
            group: group_of(t),
            next: numbers::u16_at(t, 0),
            first: numbers::u16_at(t, 34),
        }
    }

    fn good(self, t: &Slot) -> bool {
        vehicle_fields::group_in_range(self.group) & (t[5] <= 3) & numbers::zero_in(t, 37..64)
    }

    ghost kind_is_named = { λ e. Prim.cc };
}

// What slot n of a file holds as a group.
#[tactic(auto, unfolding(crate::specs::Layout::group_read, crate::specs::Layout::group_slot_of))]
#[inline(always)]
pub fn read_group(file: &[u8], n: usize) -> Result<GroupSlot, RefusedSlot<GroupSlot>>
    ensures { result ≡ group_read (slot_of file.now n) }
{
    slot::read_or_fields(file, n)
}
