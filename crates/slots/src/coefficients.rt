// A coefficient slot.
ghost use Rattle.std.specs.Prelude.{◌≡◌};
ghost use Rattle.slots.specs.Bytes.{slot_of};
ghost use Rattle.slots.specs.Layout.{coefficients_of, coefficients_good, coefficient_slot_of, coefficients_read};

use super::slot::{Content, RefusedSlot, Slot};
use super::{numbers, slot};
use std::array;
use vehicle_fields::Coefficients;

// The pollutant, the fields and the next index. The pollutant is a number: question 10 judges it, which the walk asks, so a slot with any is read.
#[derive(Clone, Copy)]
pub struct CoefficientSlot {
    pub pollutant: u8,
    pub coefficients: Coefficients,
    pub next: u16,
}

#[tactic(auto, unfolding(crate::specs::Layout::coefficients_of))]
fn coefficients_of(t: &Slot) -> Coefficients
    ensures { result ≡ coefficients_of t.now }
{
    Coefficients::from(array::from_fn(|i| numbers::u32_at(t, 4 + 4 * i)))
}

#[tactic(auto, unfolding(crate::specs::Layout::coefficient_slot_of, crate::specs::Layout::coefficients_good))]
impl Content for CoefficientSlot {
    ghost KIND = { 2 };

    ghost fields = { coefficient_slot_of };

    ghost good = { λ t s. coefficients_good t s.coefficients };

    const KIND: u8 = 2;

    fn fields(t: &Slot) -> Self {
        Self {
            pollutant: t[3],
            coefficients: coefficients_of(t),
            next: numbers::u16_at(t, 0),
        }
    }

    fn good(self, t: &Slot) -> bool {
        vehicle_fields::coefficients_in_range(self.coefficients) & numbers::zero_in(t, 32..64)
    }

    ghost kind_is_named = { λ e. Prim.cc };
}

// What slot n of a file holds as coefficients.
#[tactic(auto, unfolding(crate::specs::Layout::coefficients_read, crate::specs::Layout::coefficient_slot_of))]
pub fn read_coefficients(
    file: &[u8],
    n: usize,
) -> Result<CoefficientSlot, RefusedSlot<CoefficientSlot>>
    ensures { result ≡ coefficients_read (slot_of file.now n) }
{
    slot::read_or_fields(file, n)
}
