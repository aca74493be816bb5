// A slot's bytes, its next index, and what it holds.
ghost use Rattle.std.specs.Prelude.{◌≡◌, ℕ, List, Bool, eqb, replicate, MatchOption};
ghost use Rattle.slots.specs.Bytes.{slot_size, byte_at, slot_of};
ghost use Rattle.slots.specs.Layout.{next_of, slot_read, with_fields};

use super::numbers;
use sums::Reason;

pub const SLOT_SIZE: usize = 64;

pub(crate) type Slot = [u8; SLOT_SIZE];

// The bytes of slot n where they stand in the file; nothing of a slot that the file does not have, whose bytes the definitions have as zeros.
pub(crate) fn slot_at(file: &[u8], n: usize) -> Option<&Slot>
    ensures { MatchOption result (slot_of file.now n ≡ replicate slot_size 0) (λ t. t.now ≡ slot_of file.now n) }
{
    let (slots, _) = file.as_chunks();
    slots.get(n)
}

// Those bytes, or the zeros.
#[inline(always)]
pub(crate) fn bytes_of(file: &[u8], n: usize) -> Slot
    ensures { result ≡ slot_of file.now n }
{
    slot_at(file, n).copied().unwrap_or([0; SLOT_SIZE])
}

// The next index of slot n. Of a slot that the file does not have it is 0 and no `None`: such a slot reads as zero, and each caller has asked question 6.
pub fn next_of(file: &[u8], n: usize) -> u16
    ensures { result ≡ next_of (slot_of file.now n) }
{
    slot_at(file, n).map_or(0, |t| numbers::u16_at(t, 0))
}

// The kind of slot n, where the file has it.
pub(crate) fn kind_of(file: &[u8], n: usize) -> Option<u8>
    ensures { MatchOption result (byte_at (slot_of file.now n) 2 ≡ 0) (λ k. k ≡ byte_at (slot_of file.now n) 2) }
{
    slot_at(file, n).map(|t| t[2])
}

// What a slot of one kind holds: its fields by their byte positions, and whether they are in range and every byte that is not named is zero.
pub(crate) trait Content: Copy {
    ghost KIND: { ℕ };

    ghost fields: { List ℕ → Self };

    ghost good: { List ℕ → Self → Bool };

    const KIND: u8;

    fn fields(t: &Slot) -> Self
        ensures { result ≡ fields t.now };

    fn good(self, t: &Slot) -> bool
        ensures { result ≡ good t.now self };

    // A slot that the file does not have is of no kind.
    ghost kind_is_named: { KIND ≡ 0 → ⊥ };
}

// A slot that is refused: the question that refuses it, 8 or 9, and what its fields are all the same. Of a slot that the file does not have they are those of zeros.
#[derive(Clone, Copy)]
pub struct RefusedSlot<C> {
    pub reason: Reason,
    pub fields: C,
}

// What slot n holds, or the question that it is refused by: 8 or 9. Inlined, as what
// reads a source's slot is: of a content that the caller drops only what is tested is read.
#[tactic(auto, unfolding(crate::specs::Layout::slot_read, sums::specs::Choice::if_then_else))]
#[inline(always)]
pub(crate) fn read<C: Content>(file: &[u8], n: usize) -> Result<C, Reason>
    ensures { let t = slot_of file.now n in result ≡ slot_read (eqb (byte_at t 2) C.KIND) (C.good t (C.fields t)) (C.fields t) }
{
    let t = slot_at(file, n).ok_or(Reason::WrongKind)?;
    if t[2] != C::KIND {
        return Err(Reason::WrongKind);
    }
    let content = C::fields(t);
    if content.good(t) {
        Ok(content)
    } else {
        Err(Reason::OutOfRange)
    }
}

// The fields of slot n, whatever its kind. Only of a slot that is refused are they read so, and a caller that drops them does not read them.
#[cold]
fn fields_of<C: Content>(file: &[u8], n: usize) -> C
    ensures { result ≡ C.fields (slot_of file.now n) }
{
    C::fields(&bytes_of(file, n))
}

// What `read` answers, with the fields of a slot that is refused.
#[tactic(auto, unfolding(crate::specs::Layout::with_fields))]
#[inline(always)]
pub(crate) fn read_or_fields<C: Content>(file: &[u8], n: usize) -> Result<C, RefusedSlot<C>>
    ensures { let t = slot_of file.now n in result ≡ with_fields (C.fields t) (slot_read (eqb (byte_at t 2) C.KIND) (C.good t (C.fields t)) (C.fields t)) }
{
    read(file, n).map_err(|reason| RefusedSlot {
        reason,
        fields: fields_of(file, n),
    })
}
