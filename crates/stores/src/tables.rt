// The tables 2 to 7 of SO 153-34.02.317-2003, each in whole parts of one denominator.
ghost use Rattle.std.specs.Prelude.{◌≡◌, ◌≤◌, ◌-◌, get_or};
ghost use Rattle.sums.specs.Fraction.{parts_of};
ghost use Rattle.sums.specs.Table.{line_of, bounds};
ghost use Rattle.stores.specs.Rules.{numbered, k1_table, k2_table, q_table, k3_table, k3_of, k4_table, k5_table, k5_of, k6_of, k7_table, k7_of, drop_table, dust_code};

// Table 2, by material: K1 and K2 in hundredths, Q in thousandths.
const K1: [u64; 9] = [3, 4, 7, 4, 3, 5, 4, 5, 4];

const K2: [u64; 9] = [1, 1, 1, 1, 2, 2, 3, 3, 1];

const Q: [u64; 9] = [3, 5, 5, 5, 5, 2, 3, 2, 5];

// Table 3, by wind, in tenths.
const K3: [u64; 6] = [10, 12, 14, 17, 20, 23];

// Table 4, by openness, in thousandths.
const K4: [u64; 7] = [1_000, 500, 300, 200, 100, 10, 5];

// Table 5, by moisture, in hundredths.
const K5: [u64; 9] = [100, 90, 80, 70, 60, 40, 20, 10, 1];

// Table 6, by grain, in tenths.
const K7: [u64; 8] = [10, 8, 7, 6, 5, 4, 2, 1];

// Table 7, B' by drop class, in tenths.
const DROP: [u64; 8] = [1, 5, 6, 7, 10, 15, 20, 25];

// The substance code of each dust.
const CODES: [u16; 3] = [152, 2908, 2909];

// The entry of a table by its number, from 1, with 0 as 1 and `none` past its end: the definitions have an entry for each number too, so no caller owes a range.
fn entry<T: Copy, const N: usize>(table: &[T; N], number: u8, none: T) -> T
    ensures { result ≡ get_or table.now (number - 1) none }
{
    let n = usize::from(number);
    // A record in range has passed this test, so the compiler drops it and the look-up below.
    if (1 <= n) & (n <= N) {
        return table[n - 1];
    }
    table.get(n.saturating_sub(1)).copied().unwrap_or(none)
}

// Each table has a function of its own, since each promises another fraction of the papers.
#[tactic(auto, using(crate::proofs::TableTests::k1_scaled), unfolding(sums::specs::Fraction::parts_of))]
pub(crate) fn k1(material: u8) -> u64
    ensures { (result ≡ parts_of 100 (numbered k1_table material)) × (result ≤ 7) }
{
    entry(&K1, material, 0)
}

#[tactic(auto, using(crate::proofs::TableTests::k2_scaled), unfolding(sums::specs::Fraction::parts_of))]
pub(crate) fn k2(material: u8) -> u64
    ensures { (result ≡ parts_of 100 (numbered k2_table material)) × (result ≤ 3) }
{
    entry(&K2, material, 0)
}

#[tactic(auto, using(crate::proofs::TableTests::q_scaled), unfolding(sums::specs::Fraction::parts_of))]
pub(crate) fn q(material: u8) -> u64
    ensures { (result ≡ parts_of 1000 (numbered q_table material)) × (result ≤ 5) }
{
    entry(&Q, material, 0)
}

// The line of its table that a value is up to: by `match`, the form that 01 names for wind, moisture and grain.
#[tactic(auto, unfolding(sums::specs::Table::line_of, sums::specs::Choice::if_then_else))]
fn wind_band(wind: u16) -> usize
    ensures { result ≡ line_of (bounds k3_table) wind }
{
    match wind {
        0..=20 => 0,
        21..=50 => 1,
        51..=70 => 2,
        71..=100 => 3,
        101..=120 => 4,
        _ => 5,
    }
}

#[tactic(auto, using(crate::proofs::TableTests::k3_scaled), unfolding(sums::specs::Fraction::parts_of))]
pub(crate) fn k3(wind: u16) -> u64
    ensures { (result ≡ parts_of 10 (k3_of wind)) × (result ≤ 23) }
{
    let band = wind_band(wind);
    K3[band]
}

#[tactic(auto, using(crate::proofs::TableTests::k4_scaled), unfolding(sums::specs::Fraction::parts_of))]
pub(crate) fn k4(openness: u8) -> u64
    ensures { (result ≡ parts_of 1000 (numbered k4_table openness)) × (result ≤ 1000) }
{
    entry(&K4, openness, 0)
}

#[tactic(auto, unfolding(sums::specs::Table::line_of, sums::specs::Choice::if_then_else))]
fn moisture_band(moisture: u16) -> usize
    ensures { result ≡ line_of (bounds k5_table) moisture }
{
    match moisture {
        0..=5 => 0,
        6..=10 => 1,
        11..=30 => 2,
        31..=50 => 3,
        51..=70 => 4,
        71..=80 => 5,
        81..=90 => 6,
        91..=100 => 7,
        _ => 8,
    }
}

#[tactic(auto, using(crate::proofs::TableTests::k5_scaled), unfolding(sums::specs::Fraction::parts_of))]
pub(crate) fn k5(moisture: u16) -> u64
    ensures { (result ≡ parts_of 100 (k5_of moisture)) × (result ≤ 100) }
{
    let band = moisture_band(moisture);
    K5[band]
}

// A missing K6 counts as 1.30.
#[tactic(auto, unfolding(crate::specs::Rules::k6_of, sums::specs::Choice::if_then_else, sums::specs::Fraction::parts_of))]
pub(crate) fn k6(hundredths: u16) -> u64
    ensures { (result ≡ parts_of 100 (k6_of hundredths)) × (hundredths ≤ 200 → result ≤ 200) }
{
    if hundredths == 0 {
        130
    } else {
        u64::from(hundredths)
    }
}

#[tactic(auto, unfolding(sums::specs::Table::line_of, sums::specs::Choice::if_then_else))]
fn grain_band(grain: u16) -> usize
    ensures { result ≡ line_of (bounds k7_table) grain }
{
    match grain {
        0..=1 => 0,
        2..=3 => 1,
        4..=5 => 2,
        6..=10 => 3,
        11..=50 => 4,
        51..=100 => 5,
        101..=500 => 6,
        _ => 7,
    }
}

#[tactic(auto, using(crate::proofs::TableTests::k7_scaled), unfolding(sums::specs::Fraction::parts_of))]
pub(crate) fn k7(grain: u16) -> u64
    ensures { (result ≡ parts_of 10 (k7_of grain)) × (result ≤ 10) }
{
    let band = grain_band(grain);
    K7[band]
}

#[tactic(auto, using(crate::proofs::TableTests::drop_scaled), unfolding(sums::specs::Fraction::parts_of))]
pub(crate) fn drop_factor(class: u8) -> u64
    ensures { (result ≡ parts_of 10 (numbered drop_table class)) × (result ≤ 25) }
{
    entry(&DROP, class, 0)
}

pub(crate) fn code_of(dust: u8) -> u16
    ensures { result ≡ dust_code dust }
{
    entry(&CODES, dust, 0)
}
