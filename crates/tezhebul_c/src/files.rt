// The check, the answer and the listing of a slot file, each by the function of its name in `tezhebul`, whose promise it repeats.
ghost use Rattle.std.specs.Prelude.{◌≡◌};
ghost use Rattle.slot_file.specs.Walk.{outcome, told};
ghost use Rattle.slot_file.specs.Figures.{answer};
ghost use Rattle.slot_file.specs.Listing.{listed};
ghost use Rattle.answer_numbers.specs.Numbers.{packed, numbers_of, answer_size, Given};
ghost use Rattle.tezhebul.specs.Memory.{ListingGiven};

#[unsafe(no_mangle)]
pub extern "C" fn tezhebul_check(file: &[u8]) -> u32
    ensures { result ≡ packed (told (outcome file.now)) }
{
    tezhebul::files::tezhebul_check(file)
}

#[unsafe(no_mangle)]
pub extern "C" fn tezhebul_answer(file: &[u8], out: &mut [u64]) -> bool
    ensures { Given answer_size (numbers_of (answer file.now)) out.old result out.new }
{
    tezhebul::files::tezhebul_answer(file, out)
}

#[unsafe(no_mangle)]
pub extern "C" fn tezhebul_list(file: &[u8], buffer: &mut [u8], out: &mut [u64]) -> usize
    ensures { ListingGiven (listed (answer file.now) buffer.old) result buffer.new out.old out.new }
{
    tezhebul::files::tezhebul_list(file, buffer, out)
}
