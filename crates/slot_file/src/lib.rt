// What is asked of a slot file and what it answers, as definitions (specs/) with their theorems (proofs/), and the forms of an answer and of a listing.
#![tactic(auto)]

pub mod codes;

pub use codes::{COUNT, code_at, listing_codes, place_of};

// The slots and the bytes of a file at most, by question 1.
pub const MOST_SLOTS: usize = 1_024;

pub const MOST_BYTES: usize = slots::SLOT_SIZE * MOST_SLOTS;

// How many groups, store records and locomotives were summed.
#[derive(Clone, Copy)]
pub struct Counts {
    pub groups: u16,
    pub stores: u16,
    pub locomotives: u16,
}

// Of an accepted file: the annual figures in millionths of a tonne and the peak figures in ten-millionths of a gram per second, by code; and the counts. Two rows, as the C
// interface hands them over.
#[derive(Clone, Copy)]
pub struct Answer {
    pub annual: [u64; COUNT],
    pub peak: [u64; COUNT],
    pub counts: Counts,
}

// Of a listing into a lent buffer: the answer itself, and how many bytes were written.
#[derive(Clone, Copy)]
pub struct Listing {
    pub answer: Answer,
    pub written: usize,
}
