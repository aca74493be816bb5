// What a walk carries: which slots are sources so far, and which are reached, and the sums where they are wanted.
ghost use Rattle.std.specs.Prelude.{◌≡◌, []};
ghost use Rattle.slot_file.specs.Parts.{marks_of};
ghost use Rattle.totals.specs.Totals.{no_sums};

use super::marks;
use slot_file::MOST_SLOTS;
use totals::Totals;

#[derive(Drop)]
pub(crate) struct State {
    pub(crate) sources: [bool; MOST_SLOTS],
    pub(crate) reached: [bool; MOST_SLOTS],
    pub(crate) totals: Totals,
}

impl State {
    // Nothing is passed.
    pub(crate) fn start() -> Self
        ensures { result ≡ record { sources = marks_of []; reached = marks_of []; totals = no_sums } }
    {
        Self {
            sources: marks::no_marks(),
            reached: marks::no_marks(),
            totals: Totals::none(),
        }
    }
}
