// The check, the answer and the listing of a slot file.
ghost use Rattle.std.specs.Prelude.{◌≡◌};
ghost use Rattle.slot_file.specs.Walk.{outcome, told};
ghost use Rattle.slot_file.specs.Figures.{answer};
ghost use Rattle.slot_file.specs.Listing.{listed};
ghost use Rattle.answer_numbers.specs.Numbers.{packed, numbers_of, answer_size, Given};
ghost use Rattle.tezhebul.specs.Memory.{ListingGiven};

// 0 of an accepted file, and else 65,536 times the refusal's number, plus its slot.
pub fn tezhebul_check(file: &[u8]) -> u32
    ensures { result ≡ packed (told (outcome file.now)) }
{
    match walk::check(file) {
        Ok(()) => 0,
        Err(r) => {
            let number = u32::from(u8::from(r.reason));
            65_536 * number + u32::from(r.slot)
        }
    }
}

// The numbers of a file's answer at the start of `out`; false, and nothing written, where it has room for fewer.
pub fn tezhebul_answer(file: &[u8], out: &mut [u64]) -> bool
    ensures { Given answer_size (numbers_of (answer file.now)) out.old result out.new }
{
    answer_numbers::give_answer(walk::answer(file), out)
}

// The listing at the start of the buffer, and its length, or 0 where it is refused; and in `out`, where there is room for them, the numbers of what the listing answers:
// those of the file, or of a refusal.
pub fn tezhebul_list(file: &[u8], buffer: &mut [u8], out: &mut [u64]) -> usize
    ensures { ListingGiven (listed (answer file.now) buffer.old) result buffer.new out.old out.new }
{
    match listing::list(file, buffer) {
        Ok(listing) => {
            answer_numbers::give_answer(Ok(listing.answer), out);
            listing.written
        }
        Err(r) => {
            answer_numbers::give_answer(Err(r), out);
            0
        }
    }
}
