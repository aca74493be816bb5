// Units of measure, each a type of its own, so that one is not taken for another.

// Coefficients, in ten-thousandths of a gram.
#[derive(Clone, Copy)]
pub struct PerMinute(pub u32);

#[derive(Clone, Copy)]
pub struct PerKilometre(pub u32);

// Tenths of a minute.
#[derive(Clone, Copy)]
pub struct Minutes(pub u32);

#[derive(Clone, Copy)]
pub struct Metres(pub u32);
