// The bytes that are written of a listing, with room for any; and how text and numbers are added at their end.
ghost use Rattle.std.specs.Prelude.{◌≡◌, ◌+◌, ◌^◌, ◌<◌, ◌≤◌, List, ℕ, [], ◌∷◌, ◌++◌, length, take};
ghost use Rattle.slot_file.specs.Listing.{decimal, padded, fixed};
ghost use Rattle.listing_lines.specs.Text.{listing_room};

use super::LISTING_ROOM;
use std::marker::Model;

// Not an `ArrayVec`: it takes a text only by a `Result` with a case that never is, and to clauses it is a record about its items, where a page is its bytes.
#[derive(Drop)]
pub struct Page {
    room: [u8; LISTING_ROOM],
    length: usize,
}

// Clauses see the bytes that are written.
impl Model for Page {
    ghost Value = { List ℕ };

    ghost view = { λ p. take p.length p.room };

    ghost invariant = { λ p. p.length ≤ listing_room };
}

// `pow` runs no more instructions than a table: where a count of digits is written out, the compiler works both out. n is a literal where a line is written, and below 8, so
// `as` loses nothing.
fn power(n: usize) -> u64
    requires { n < 8 }
    ensures { (result ≡ 10 ^ n) × (0 < result) }
{
    10_u64.pow(n as u32)
}

// What is put at the end asks for room in its contract, each for another count, so no one type would hold it. A digit is below 10 and fits a byte, where `try_from` would
// have a case that never is: `as` turns it.
impl Page {
    pub fn new() -> Self
        ensures { result ≡ [] }
    {
        Page {
            room: [0; LISTING_ROOM],
            length: 0,
        }
    }

    pub fn bytes(&self) -> &[u8]
        ensures value { result.now ≡ self.now }
        ensures within { length result.now ≤ listing_room }
    {
        &self.room[..self.length]
    }

    pub(crate) fn push_byte(&mut self, b: u8)
        requires { length self.old < listing_room }
        ensures { self.new ≡ self.old ++ b ∷ [] }
    {
        self.room[self.length] = b;
        self.length += 1;
    }

    pub(crate) fn push_text(&mut self, t: &[u8])
        requires { length self.old + length t.now ≤ listing_room }
        ensures { self.new ≡ self.old ++ t.now }
    {
        let end = self.length + t.len();
        self.room[self.length..end].copy_from_slice(t);
        self.length = end;
    }

    // With no leading zeros. Not by `write!`, which promises its bytes only where it succeeds, and nowhere that it does.
    #[tactic(auto, using(crate::proofs::Digits::decimal_less))]
    pub(crate) fn push_decimal(&mut self, x: u64)
        requires { length self.old + 20 ≤ listing_room }
        ensures text { self.new ≡ self.old ++ decimal x }
        ensures short { length self.new ≤ length self.old + 20 }
    {
        let is_digit = x < 10;
        if is_digit {
            self.push_byte(b'0' + x as u8);
        } else {
            self.push_decimal(x / 10);
            self.push_byte(b'0' + (x % 10) as u8);
        }
    }

    // The last n digits of x, zeros in front too. Not by `push_byte`: that the page grows only once spares two words of memory for each digit.
    pub(crate) fn push_padded(&mut self, x: u64, n: usize)
        requires { (n < 9) × (length self.old + n ≤ listing_room) }
        ensures text { self.new ≡ self.old ++ padded n x }
        ensures count { length self.new ≡ length self.old + n }
    {
        let end = self.length + n;
        for left in (0..n).rev() {
            self.room[end - 1 - left] = b'0' + (x / power(left) % 10) as u8;
        }
        self.length = end;
    }

    // x units of the last of n decimals.
    #[tactic(auto, unfolding(slot_file::specs::Listing::fixed, slot_file::specs::Listing::text))]
    pub(crate) fn push_fixed(&mut self, x: u64, n: usize)
        requires { (n < 8) × (length self.old + 21 + n ≤ listing_room) }
        ensures text { self.new ≡ self.old ++ fixed n x }
        ensures short { length self.new ≤ length self.old + 21 }
    {
        self.push_decimal(x / power(n));
        self.push_byte(b'.');
        self.push_padded(x, n);
    }
}
