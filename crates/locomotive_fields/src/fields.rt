// The fields of a locomotive, whether each is in its range, and whether the shares are the whole of its time.
ghost use Rattle.std.specs.Prelude.{◌≡◌};
ghost use Rattle.locomotive_fields.specs.Fields.{shares_in_range, locomotive_in_range, shares_add_up};

// The modes of an engine: idle, a quarter, half and three quarters of its power, full power.
pub const MODES: usize = 5;

// The model is the type by its number in table 21, a share is in thousandths of the time, hours are a year's, old is 1 over two years of age and else 0,
// the zone is 1 south of 44 degrees, 3 north of 60 degrees and else 2. They are numbers and no enums: the rule takes any value and refuses it itself, by 9.
#[derive(Clone, Copy)]
pub struct Locomotive {
    pub model: u8,
    pub shares: [u16; MODES],
    pub hours: u16,
    pub old: u8,
    pub zone: u8,
}

// `fold` has no branch between the tests: five shares take 9 instructions, by `all` they take 15.
fn shares_in_range(shares: [u16; MODES]) -> bool
    ensures { result ≡ shares_in_range shares }
{
    shares.iter().fold(true, |ok, share| ok & (*share <= 1_000))
}

// Two comparisons for each range, as the definition lists them: by `contains` its proof is longer, and it runs as many instructions.
pub fn locomotive_in_range(l: Locomotive) -> bool
    ensures { result ≡ locomotive_in_range l }
{
    (1 <= l.model)
        & (l.model <= 4)
        & shares_in_range(l.shares)
        & (l.hours <= 8_784)
        & (l.old <= 1)
        & (1 <= l.zone)
        & (l.zone <= 3)
}

// Question 14.
pub fn shares_add_up(l: Locomotive) -> bool
    ensures { result ≡ shares_add_up l }
{
    l.shares.iter().map(|share| u32::from(*share)).sum::<u32>() == 1_000
}
