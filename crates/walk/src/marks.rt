// The marks of slots: which are sources so far, and which are reached. A set is an array of marks here: the library's sets have a heap. It has no type of its own: all that
// is done with it is to set a mark and to read one.
ghost use Rattle.std.specs.Prelude.{◌≡◌, false, ◌&&◌, [], ltb, get_or};
ghost use Rattle.slot_file.specs.Questions.{slot_count};
ghost use Rattle.slot_file.specs.Parts.{marks_of};

use super::headed::Headed;
use slot_file::MOST_SLOTS;

// Slot 0 alone is marked.
pub(crate) fn no_marks() -> [bool; MOST_SLOTS]
    ensures { result ≡ marks_of [] }
{
    let mut marks = [false; MOST_SLOTS];
    marks[0] = true;
    marks
}

// Whether slot k of the file is marked; a slot that the file does not have is not.
pub(crate) fn marked(file: &Headed, marks: &[bool; MOST_SLOTS], k: usize) -> bool
    ensures { result ≡ (ltb k (slot_count file.now.bytes.now) && get_or marks.now k false) }
{
    if k < usize::from(file.header.count) {
        marks[k]
    } else {
        false
    }
}
