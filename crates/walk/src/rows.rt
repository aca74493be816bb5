// A group's coefficient slots.
ghost use Rattle.std.specs.Prelude.{◌≡◌};
ghost use Rattle.slots.specs.Bytes.{slot_of};
ghost use Rattle.slots.specs.Layout.{slot_read, first_of, coefficients_of, coefficients_kind, coefficients_good, coefficient_slot_of};
ghost use Rattle.walk.specs.Rows.{RowsRead};

use super::headed::Headed;
use questions::Link;
use slot_file::MOST_SLOTS;
use slots::CoefficientSlot;
use sums::{Reason, Refusal};
use vehicle_fields::{Coefficients, POLLUTANTS, PerKilometre, PerMinute};

// What a row is before it is read.
const NO_ROW: Coefficients = Coefficients {
    warmup: [PerMinute(0); 3],
    run: [PerKilometre(0); 3],
    idle: PerMinute(0),
};

// What slot n holds as coefficients, or the question that it is refused by: 8 or 9.
fn read_row(bytes: &[u8], n: usize) -> Result<CoefficientSlot, Reason>
    ensures { let t = slot_of bytes.now n in result ≡ slot_read (coefficients_kind t) (coefficients_good t (coefficients_of t)) (coefficient_slot_of t) }
{
    slots::read_coefficients(bytes, n).map_err(|refused| refused.reason)
}

// The coefficient links of the group g, from `first` on, which is its slot's, as only the chain knows; each slot is marked as reached. It ends after one link for each
// pollutant, wherever they lead. A loop fills the rows, since it hands on the link and the marks, which a closure would have to carry.
pub(crate) fn read_rows(
    file: &Headed,
    reached: &mut [bool; MOST_SLOTS],
    g: u16,
    first: u16,
) -> Result<[Coefficients; POLLUTANTS], Refusal>
    requires { first ≡ first_of (slot_of file.now.bytes.now g) }
    ensures { RowsRead file.now.bytes.now g reached.old reached.new result }
{
    let mut coefficients = [NO_ROW; POLLUTANTS];
    let mut link = Link {
        holder: g,
        slot: first,
    };
    for n in 0..POLLUTANTS {
        questions::ask_row(file.bytes, link)?;
        let k = usize::from(link.slot);
        let row = questions::ask_slot(read_row(file.bytes, k), link.slot)?;
        let in_turn = usize::from(row.pollutant) == n + 1;
        questions::ask(in_turn, Reason::CoefficientChain, link.slot)?;
        coefficients[n] = row.coefficients;
        reached[k] = true;
        link = Link {
            holder: link.slot,
            slot: row.next,
        };
    }
    questions::ask(link.slot == 0, Reason::CoefficientChain, link.holder)?;
    Ok(coefficients)
}
