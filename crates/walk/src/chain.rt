// A chain of sources: what its slots hold, what is asked of them and what they give; and the walk along any.
ghost use Rattle.std.specs.Prelude.{◌≡◌, true, ℕ, List};
ghost use Rattle.slots.specs.Bytes.{slot_of};
ghost use Rattle.slots.specs.Layout.{slot_read};
ghost use Rattle.totals.specs.declared.Totals.{Totals};
ghost use Rattle.walk.specs.ChainKind.{ChainKind};
ghost use Rattle.walk.specs.OnePass.{Stands, Stepped, Walked};
ghost use Rattle.walk.specs.ChainWalk.{Sourced, Offered, SumsMore, ChainLaws, Begins};

use super::headed::Headed;
use super::marks;
use super::state::State;
use super::summing::Summing;
use questions::Link;
use slot_file::MOST_SLOTS;
use slots::Header;
use sums::{Reason, Refusal};
use totals::Totals;

// Impls of `read` and `source` are inlined: a check drops the source, and so does not make it.
pub(crate) trait Chain: Copy {
    // What a slot holds, and the source that it makes with what it links to.
    type Content: Copy;

    type Source: Copy;

    ghost kind: { ChainKind };

    ghost content_of: { List ℕ → Self.Content };

    ghost source_at: { List ℕ → ℕ → Self.Source };

    ghost plus: { Self → Totals → Self.Source → Totals };

    // The first link.
    fn head(h: Header) -> u16
        ensures { result ≡ kind.head h };

    // What slot n holds, or the question that it is refused by: 8 or 9.
    fn read(bytes: &[u8], n: usize) -> Result<Self::Content, Reason>
        ensures { let t = slot_of bytes.now n in result ≡ slot_read (kind.of_kind t) (kind.good t) (content_of t) };

    // The source of a link's slot, after what is asked of it beside its slot; that the content is that slot's only the step knows, which has read it. What it reaches beside
    // its slot is marked as reached.
    fn source(
        file: &Headed,
        reached: &mut [bool; MOST_SLOTS],
        link: u16,
        content: Self::Content,
    ) -> Result<Self::Source, Refusal>
        requires { content ≡ content_of (slot_of file.now.bytes.now link) }
        ensures { Sourced kind source_at file.now.bytes.now link reached.old reached.new result };

    // Adds a source to the sums.
    fn add(self, totals: &mut Totals, source: Self::Source)
        ensures { totals.new ≡ plus self totals.old source };
}

// Where a walk along a chain stands: the link that it goes on by, and how many of the chain's sources it has passed.
#[derive(Clone, Copy)]
pub(crate) struct Position {
    pub(crate) link: Link,
    pub(crate) passed: u16,
}

// All that is asked of a link. Where it is 0 the chain ends and there is none, which only the walk asks. Its slot is marked as a source, and it and what it reaches as
// reached; the source is added, where sums are wanted. It answers the next link: a number and no `Option`, as a slot has it, and 0 as the holder of a chain's first link
// is the slot that a refusal names.
fn take_source<C: Chain, S: Summing>(
    chain: C,
    file: &Headed,
    state: &mut State,
    link: Link,
) -> Result<u16, Refusal>
    requires { link.slot ≡ 0 → ⊥ }
    ensures { Offered C.kind C.source_at file.now.bytes.now S.wanted (C.plus chain) link.holder link.slot state.old state.new result }
{
    let k = usize::from(link.slot);
    let known = marks::marked(file, &state.sources, k);
    questions::ask_link(file.bytes, known, link)?;
    let content = questions::ask_slot(C::read(file.bytes, k), link.slot)?;
    state.sources[k] = true;
    state.reached[k] = true;
    let source = C::source(file, &mut state.reached, link.slot, content)?;
    S::add(chain, &mut state.totals, source);
    Ok(slots::next_of(file.bytes, k))
}

// A step of the walk: the source of the link where it stands. After it the sums are the exact sums of the sources passed so far. The laws are a clause and no member of
// the trait, whose ghosts may not cite proofs; that the walk stands there and goes on, and what a source adds to its sums, only the walk knows.
fn step_along<C: Chain, S: Summing>(
    chain: C,
    file: &Headed,
    state: &mut State,
    at: Position,
) -> Result<Position, Refusal>
    requires laws { ChainLaws C.kind }
    requires sums { S.wanted ≡ true → SumsMore C.kind C.source_at file.now.bytes.now (C.plus chain) }
    requires stands { Stands C.kind file.now.bytes.now S.wanted state.old at }
    requires goes_on { at.link.slot ≡ 0 → ⊥ }
    ensures { Stepped C.kind file.now.bytes.now S.wanted state.old state.new at result }
{
    let next = take_source::<C, S>(chain, file, state, at.link)?;
    Ok(Position {
        link: Link {
            holder: at.link.slot,
            slot: next,
        },
        passed: at.passed + 1,
    })
}

// The chain, from slot 0 to a zero or to the first question that is answered no. It ends: a step that goes on has marked a source that was not marked before
// (question 7), and a file has fewer than MOST_SLOTS of them. How the sums and the state begin only `walk_chains` knows, whose own they are: what a refused walk leaves in
// them goes with it, and so is not said.
pub(crate) fn walk_chain<C: Chain, S: Summing>(
    chain: C,
    file: &Headed,
    state: &mut State,
) -> Result<u16, Refusal>
    requires laws { ChainLaws C.kind }
    requires sums { S.wanted ≡ true → (C.kind.head file.now.header ≡ 0 → ⊥) → SumsMore C.kind C.source_at file.now.bytes.now (C.plus chain) }
    requires begins { Begins C.kind file.now.bytes.now S.wanted state.old }
    ensures { Walked C.kind file.now.bytes.now S.wanted state.new result }
{
    let mut at = Position {
        link: Link {
            holder: 0,
            slot: C::head(file.header),
        },
        passed: 0,
    };
    while at.link.slot != 0 {
        at = step_along::<C, S>(chain, file, state, at)?;
    }
    Ok(at.passed)
}
