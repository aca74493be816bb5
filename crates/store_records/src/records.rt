// The fields of store records, and whether each is in its range. What is one of a few (dust, material, openness, drop class) is a number and no enum: a rule takes any
// value and refuses it itself, by 9.
ghost use Rattle.std.specs.Prelude.{◌≡◌};
ghost use Rattle.store_records.specs.Fields.{bulk_in_range, handling_in_range, standing_in_range, aspiration_in_range};

// What handling and standing records have in common. Wind is in tenths of a metre a second, moisture in tenths of a percent, grain in
// millimetres; the amount is in kilograms per 20 minutes where the material is handled, in square metres where it stands.
#[derive(Clone, Copy)]
pub struct Bulk {
    pub dust: u8,
    pub store: u16,
    pub material: u8,
    pub wind: u16,
    pub moisture: u16,
    pub grain: u16,
    pub openness: u8,
    pub amount: u32,
}

#[derive(Clone, Copy)]
pub struct Handling {
    pub bulk: Bulk,
    pub drop: u8,
}

// K6 is in hundredths, 0 where it is missing, as 01 has it: a `None` would be made of that 0 wherever a record is handed over.
#[derive(Clone, Copy)]
pub struct Standing {
    pub bulk: Bulk,
    pub k6: u16,
}

// Concentration in milligrams per cubic metre, flow in litres a second, capture in hundredths of a percent, hours a year.
#[derive(Clone, Copy)]
pub struct Aspiration {
    pub dust: u8,
    pub store: u16,
    pub concentration: u32,
    pub flow: u32,
    pub capture: u16,
    pub hours: u16,
}

// Two comparisons for each range, as the definition lists them: by `contains` its proof is longer, and it runs as many instructions.
#[tactic(auto, unfolding(crate::specs::Fields::bulk_in_range))]
fn bulk_in_range(b: Bulk) -> bool
    ensures { result ≡ bulk_in_range b }
{
    (1 <= b.dust)
        & (b.dust <= 3)
        & (1 <= b.store)
        & (1 <= b.material)
        & (b.material <= 9)
        & (b.wind <= 140)
        & (b.moisture <= 1_000)
        & (1 <= b.openness)
        & (b.openness <= 7)
        & (b.amount <= 1_000_000)
}

// A function for each record and no trait: nobody asks the range of a record whose kind he does not know.
#[tactic(auto, unfolding(crate::specs::Fields::handling_in_range))]
pub fn handling_in_range(h: Handling) -> bool
    ensures { result ≡ handling_in_range h }
{
    bulk_in_range(h.bulk) & (1 <= h.drop) & (h.drop <= 8)
}

#[tactic(auto, unfolding(crate::specs::Fields::standing_in_range))]
pub fn standing_in_range(s: Standing) -> bool
    ensures { result ≡ standing_in_range s }
{
    bulk_in_range(s.bulk) & (s.k6 <= 200) & ((s.k6 == 0) | (100 <= s.k6))
}

#[tactic(auto, unfolding(crate::specs::Fields::aspiration_in_range))]
pub fn aspiration_in_range(a: Aspiration) -> bool
    ensures { result ≡ aspiration_in_range a }
{
    (1 <= a.dust)
        & (a.dust <= 3)
        & (1 <= a.store)
        & (a.concentration <= 1_000_000)
        & (a.flow <= 1_000_000)
        & (a.capture <= 10_000)
        & (a.hours <= 8_784)
}
