// A file whose head is asked: questions 1 to 5 are answered yes, so it is short enough for the marks, and its header has the count of its slots.
ghost use Rattle.std.specs.Prelude.{◌≡◌, ◌≤◌, length, MatchResult};
ghost use Rattle.slot_file.specs.Sources.{header_at};
ghost use Rattle.slot_file.specs.Questions.{most_bytes, slot_count, head_asks};
ghost use Rattle.slot_file.specs.Meaning.{AllYes, Refuses};

use slots::Header;
use sums::Refusal;

#[derive(Clone, Copy)]
pub(crate) struct Headed<'a> {
    pub(crate) bytes: &'a [u8],
    pub(crate) header: Header,
    ghost read: { header ≡ header_at bytes.now },
    ghost short: { length bytes.now ≤ most_bytes },
    ghost counted: { header.count ≡ slot_count bytes.now },
}

impl<'a> Headed<'a> {
    // Inlined, as `read_header` is: a header that is handed over is written and read again, 38 instructions a file.
    #[inline(always)]
    pub(crate) fn of(bytes: &'a [u8]) -> Result<Self, Refusal>
        ensures { MatchResult result (λ f. (f.bytes.now ≡ bytes.now) × AllYes (head_asks f.bytes.now)) (Refuses bytes.now) }
    {
        let header = slots::read_header(bytes);
        questions::ask_head(bytes, header)?;
        Ok(Self { bytes, header })
    }
}
