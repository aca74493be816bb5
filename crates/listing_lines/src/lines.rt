// The lines of the listing, and the refusal line.
ghost use Rattle.std.specs.Prelude.{◌≡◌, ◌+◌, ◌*◌, ◌≤◌, ◌++◌, length};
ghost use Rattle.slot_file.specs.Codes.{codes, code_count};
ghost use Rattle.slot_file.specs.Listing.{line, lines, listing, refusal_line, printed};
ghost use Rattle.listing_lines.specs.Text.{listing_room, pair, pair_most, line_most};

use super::Page;
use slot_file::{Answer, COUNT};
use sums::Refusal;

// Each asks for the room of what it puts, as in page.rt.
impl Page {
    // Code, tonnes, grams per second. There is room for one line more: a part does not count on the parts before it to be short.
    #[tactic(auto, unfolding(slot_file::specs::Listing::line, slot_file::specs::Listing::text))]
    fn push_line(&mut self, code: u16, annual: u64, peak: u64)
        requires { length self.old + 2 * line_most ≤ listing_room }
        ensures text { self.new ≡ self.old ++ line code annual peak }
        ensures short { length self.new ≤ length self.old + line_most }
    {
        self.push_padded(u64::from(code), 4);
        self.push_byte(b' ');
        self.push_fixed(annual, 6);
        self.push_byte(b' ');
        self.push_fixed(peak, 7);
        self.push_byte(b'\n');
    }

    // A line for each code.
    #[tactic(auto, unfolding(slot_file::specs::Listing::lines))]
    fn push_lines(&mut self, annual: [u64; COUNT], peak: [u64; COUNT])
        requires { length self.old + (code_count + 1) * line_most ≤ listing_room }
        ensures text { self.new ≡ self.old ++ lines codes annual peak }
        ensures short { length self.new ≤ length self.old + code_count * line_most }
    {
        for ((code, annual), peak) in slot_file::listing_codes()
            .iter()
            .zip(annual.iter())
            .zip(peak.iter())
        {
            self.push_line(*code, *annual, *peak);
        }
    }

    // Two numbers parted by a space, and a line feed.
    #[tactic(auto, unfolding(slot_file::specs::Listing::text))]
    fn push_pair(&mut self, x: u64, y: u64)
        requires { length self.old + pair_most ≤ listing_room }
        ensures text { self.new ≡ self.old ++ pair x y }
        ensures short { length self.new ≤ length self.old + pair_most }
    {
        self.push_decimal(x);
        self.push_byte(b' ');
        self.push_decimal(y);
        self.push_byte(b'\n');
    }
}

// The listing.
#[tactic(auto, unfolding(slot_file::specs::Listing::listing, slot_file::specs::Listing::text))]
pub fn listing_page(a: Answer) -> Page
    ensures { result ≡ listing a }
{
    let mut page = Page::new();
    page.push_text(b"code t/year g/s\n");
    page.push_lines(a.annual, a.peak);
    page.push_text(b"sources ");
    page.push_decimal(u64::from(a.counts.groups));
    page.push_byte(b' ');
    page.push_pair(u64::from(a.counts.stores), u64::from(a.counts.locomotives));
    page
}

#[tactic(auto, unfolding(slot_file::specs::Listing::refusal_line, slot_file::specs::Listing::text))]
fn refusal_page(r: Refusal) -> Page
    ensures { result ≡ refusal_line r }
{
    let number = u64::from(u8::from(r.reason));
    let mut page = Page::new();
    page.push_text(b"refused ");
    page.push_pair(number, u64::from(r.slot));
    page
}

// The listing, or the refusal line.
#[tactic(auto, unfolding(slot_file::specs::Listing::printed))]
pub fn printed_page(a: Result<Answer, Refusal>) -> Page
    ensures { result ≡ printed a }
{
    match a {
        Ok(a) => listing_page(a),
        Err(r) => refusal_page(r),
    }
}
