// Questions 1 to 7, and 10 of a link that ends a group's coefficients too early, in order and of what the walk has read: nothing, or the refusal of the first that is
// answered no. 8 and 9 are answered where a slot is read and told here of that slot. The walk asks the rest of 10, 11 and 14 by `ask`, and 12 itself; 13 is a listing's.
#![tactic(auto)]

ghost use Rattle.std.specs.Prelude.{◌≡◌, [], ◌∷◌, ltb};
ghost use Rattle.sums.specs.declared.answer.Reason.TheVariants.{LinkPastEnd};
ghost use Rattle.slot_file.specs.Questions.{question, slot_count, head_asks_of};
ghost use Rattle.questions.specs.Told.{told_by, at_slot, link_asked, row_asked};

use slot_file::MOST_BYTES;
use slots::{Header, SLOT_SIZE};
use sums::{Reason, Refusal};

// A link: the slot that holds it, 0 for a chain's head, and the slot that it leads to, 0 where a chain ends.
#[derive(Clone, Copy)]
pub struct Link {
    pub holder: u16,
    pub slot: u16,
}

// One question, at the slot that its refusal names.
#[tactic(auto, unfolding(crate::specs::Told::told_by, sums::specs::Choice::if_then_else))]
pub fn ask(yes: bool, reason: Reason, slot: u16) -> Result<(), Refusal>
    ensures { result ≡ told_by (question yes reason slot ∷ []) }
{
    if yes {
        Ok(())
    } else {
        Err(Refusal { reason, slot })
    }
}

// Questions 1 to 5, of the file and its slot 0.
#[tactic(auto, unfolding(crate::specs::Told::told_by, sums::specs::Choice::if_then_else))]
pub fn ask_head(file: &[u8], h: Header) -> Result<(), Refusal>
    ensures { result ≡ told_by (head_asks_of file.now h) }
{
    let n = file.len();
    ask(
        (SLOT_SIZE <= n) & (n <= MOST_BYTES) & (n % SLOT_SIZE == 0),
        Reason::Length,
        0,
    )?;
    ask(h.format == 1, Reason::Format, 0)?;
    ask(usize::from(h.count) == n / SLOT_SIZE, Reason::Count, 0)?;
    ask(h.rest, Reason::HeaderBytes, 0)?;
    ask(
        vehicle_fields::temperatures_in_range(h.temperatures),
        Reason::Temperatures,
        0,
    )
}

// Question 6.
fn ask_within(file: &[u8], link: Link) -> Result<(), Refusal>
    ensures { result ≡ told_by (question (ltb link.slot (slot_count file.now)) LinkPastEnd link.holder ∷ []) }
{
    ask(
        usize::from(link.slot) < file.len() / SLOT_SIZE,
        Reason::LinkPastEnd,
        link.holder,
    )
}

// Questions 6 and 7, of a link to a group, store record or locomotive: whether its slot is a source so far is `known`. 8 and 9 are answered where the slot is read.
#[tactic(auto, unfolding(crate::specs::Told::told_by, sums::specs::Choice::if_then_else))]
pub fn ask_link(file: &[u8], known: bool, link: Link) -> Result<(), Refusal>
    ensures { result ≡ told_by (link_asked file.now known link.holder link.slot) }
{
    ask_within(file, link)?;
    ask(!known, Reason::Repeated, link.slot)
}

// Questions 8 and 9 of a slot, which its read has answered.
pub fn ask_slot<T>(read: Result<T, Reason>, slot: u16) -> Result<T, Refusal>
    ensures { result ≡ at_slot slot read }
{
    read.map_err(|reason| Refusal { reason, slot })
}

// Questions 10 and 6, of a link to a group's coefficient slot.
#[tactic(auto, unfolding(crate::specs::Told::told_by, sums::specs::Choice::if_then_else))]
pub fn ask_row(file: &[u8], link: Link) -> Result<(), Refusal>
    ensures { result ≡ told_by (row_asked file.now link.holder link.slot) }
{
    ask(link.slot != 0, Reason::CoefficientChain, link.holder)?;
    ask_within(file, link)
}
