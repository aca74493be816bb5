// The bytes of the listing and of the refusal line.
#![tactic(auto)]

pub mod lines;
mod page;

pub use lines::{listing_page, printed_page};
pub use page::Page;
use slot_file::COUNT;

// Room for any listing: the longest has 532 bytes.
pub const LISTING_ROOM: usize = 64 * COUNT;
