// The last question.
ghost use Rattle.walk.specs.Reach.{ReachTold};

use super::headed::Headed;
use slot_file::MOST_SLOTS;
use sums::{Reason, Refusal};

// Question 12, of each slot from 1 up: it ends at the count of slots.
pub(crate) fn ask_reached(file: &Headed, reached: &[bool; MOST_SLOTS]) -> Result<(), Refusal>
    ensures { ReachTold file.now.bytes.now reached.now result }
{
    for slot in 1..file.header.count {
        if !reached[usize::from(slot)] {
            return Err(Refusal {
                reason: Reason::Unreached,
                slot,
            });
        }
    }
    Ok(())
}
