// Prints the listing of the inventory file on standard input, or its refusal line.
#![tactic(auto)]

ghost use Rattle.std.specs.Prelude.{◌≡◌, ◌⊎◌, [], IfOk, OnOk, MatchResult, length};
ghost use Rattle.std.specs.Io.KnownBytes.{Appends};
ghost use Rattle.slot_file.specs.Figures.{answer};
ghost use Rattle.slot_file.specs.Listing.{printed};
ghost use Rattle.inventory.specs.Input.{IsTaken};

use std::env::{Env, FillError};
use std::io;
use std::io::{Read, Write};

// One byte more than the longest inventory file.
const ROOM: usize = slot_file::MOST_BYTES + 1;

fn is_argument_given(rt: &HostRuntime) -> bool {
    let mut start = [0; 1];
    !matches!(rt.arg(1, &mut start), Err(FillError::NotPresent))
}

// The file on a reader, which then stands at the start of the room. An input that is longer than any inventory file fills the room, and is refused by its length
// with the rest unread.
fn read_file<'a, R: Read>(input: &mut R, room: &'a mut [u8]) -> io::Result<&'a [u8]>
    ensures { IfOk result (λ file. IsTaken (R.remaining input.old) (R.remaining input.new) (length room.old) file.now) }
{
    let n = streams::read_full(input, room)?;
    Ok(&room[..n])
}

// The file that was read, or nothing: an input that was not read to its end counts as empty, since a part of a file is no file; standard error says why.
fn file_or_nothing<'a>(read: io::Result<&'a [u8]>, rt: &impl Eprint) -> &'a [u8]
    ensures { MatchResult read.entry (λ file. result.now ≡ file.now) (λ _. result.now ≡ []) }
{
    match read {
        Ok(file) => file,
        Err(e) => {
            let _ = eprintln!(rt; "inventory: standard input: {e}");
            &[]
        }
    }
}

// Of every reader: what it had left, or nothing.
fn take_file<'a, R: Read>(input: &mut R, rt: &impl Eprint, room: &'a mut [u8]) -> &'a [u8]
    ensures { (result.now ≡ []) ⊎ IsTaken (R.remaining input.old) (R.remaining input.new) (length room.old) result.now }
{
    file_or_nothing(read_file(input, room), rt)
}

// Writes the listing of a file, or its refusal line.
fn show<W: Write>(out: &mut W, file: &[u8]) -> io::Result<()>
    ensures { OnOk result (Appends (W.contents out.old) (W.contents out.new) (printed (answer file.now))) }
{
    let page = listing::print(file);
    out.write_all(page.bytes())
}

// The file comes by standard input: an argument is not read, and standard error says so. It says too where the listing can't be written whole.
fn main(rt: HostRuntime) {
    if is_argument_given(&rt) {
        let _ = eprintln!(rt; "inventory: reads standard input: inventory < FILE");
    }
    let mut room = [0; ROOM];
    let file = take_file(&mut rt.stdin(), &rt, &mut room);
    if let Err(e) = show(&mut rt.stdout(), file) {
        let _ = eprintln!(rt; "inventory: standard output: {e}");
    }
}
