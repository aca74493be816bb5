// The answer as bytes: the listing in a lent buffer, and what the program prints.
#![tactic(auto)]

ghost use Rattle.std.specs.Prelude.{◌≡◌, Ok};
ghost use Rattle.slot_file.specs.Figures.{answer};
ghost use Rattle.slot_file.specs.Listing.{printed, listed};

use listing_lines::Page;
use slot_file::Answer;
pub use slot_file::Listing;
use sums::{Reason, Refusal};

// The listing from byte 0 of the buffer, and its length. A buffer that is too short is refused, with no byte written.
#[tactic(auto, unfolding(slot_file::specs::Listing::listed, sums::specs::Choice::if_then_else))]
fn list_answer(answer: Answer, buffer: &mut [u8]) -> Result<Listing, Refusal>
    ensures { record { listing = result; buffer = buffer.new } ≡ listed (Ok answer) buffer.old }
{
    let page = listing_lines::listing_page(answer);
    let text = page.bytes();
    if buffer.len() < text.len() {
        return Err(Refusal {
            reason: Reason::ShortBuffer,
            slot: 0,
        });
    }
    buffer[..text.len()].copy_from_slice(text);
    Ok(Listing {
        answer,
        written: text.len(),
    })
}

// The listing of a file in a lent buffer, or its refusal, with no byte written.
#[tactic(auto, unfolding(slot_file::specs::Listing::listed))]
pub fn list(file: &[u8], buffer: &mut [u8]) -> Result<Listing, Refusal>
    ensures { record { listing = result; buffer = buffer.new } ≡ listed (answer file.now) buffer.old }
{
    list_answer(walk::answer(file)?, buffer)
}

// What the program prints of a file: its listing, or its refusal line.
pub fn print(file: &[u8]) -> Page
    ensures { result ≡ printed (answer file.now) }
{
    listing_lines::printed_page(walk::answer(file))
}
