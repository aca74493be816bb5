// The substance codes of the listing, and their places in it.
ghost use Rattle.std.specs.Prelude.{◌≡◌, ◌<◌, ◌≤◌, MatchOption, get_or};
ghost use Rattle.slot_file.specs.Codes.{codes, code_count, place_of};

pub const COUNT: usize = 10;

const SODIUM_CHLORIDE: u16 = 152;

const LEAD: u16 = 184;

const NITROGEN_DIOXIDE: u16 = 301;

const SOOT: u16 = 328;

const SULPHUR_DIOXIDE: u16 = 330;

const CARBON_MONOXIDE: u16 = 337;

const PETROL_HYDROCARBONS: u16 = 2704;

const DIESEL_HYDROCARBONS: u16 = 2754;

// Inorganic dust, by its silica in percent.
const DUST_SILICA_20_TO_70: u16 = 2908;

const DUST_SILICA_BELOW_20: u16 = 2909;

const CODES: [u16; COUNT] = [
    SODIUM_CHLORIDE,
    LEAD,
    NITROGEN_DIOXIDE,
    SOOT,
    SULPHUR_DIOXIDE,
    CARBON_MONOXIDE,
    PETROL_HYDROCARBONS,
    DIESEL_HYDROCARBONS,
    DUST_SILICA_20_TO_70,
    DUST_SILICA_BELOW_20,
];

// A code's place in the listing. A `match`, which takes a few comparisons for each emission of a file, where a search of the codes takes ten.
#[tactic(auto, unfolding(crate::specs::Codes::place_of, sums::specs::Choice::if_then_else))]
pub fn place_of(code: u16) -> Option<usize>
    ensures { MatchOption result (code_count ≤ place_of codes code) (λ p. (p ≡ place_of codes code) × (p < code_count)) }
{
    match code {
        SODIUM_CHLORIDE => Some(0),
        LEAD => Some(1),
        NITROGEN_DIOXIDE => Some(2),
        SOOT => Some(3),
        SULPHUR_DIOXIDE => Some(4),
        CARBON_MONOXIDE => Some(5),
        PETROL_HYDROCARBONS => Some(6),
        DIESEL_HYDROCARBONS => Some(7),
        DUST_SILICA_20_TO_70 => Some(8),
        DUST_SILICA_BELOW_20 => Some(9),
        _ => None,
    }
}

// The codes in the listing's order.
pub fn listing_codes() -> [u16; COUNT]
    ensures { result ≡ codes }
{
    CODES
}

// The code at a place of the listing, or 0 past its end.
pub fn code_at(place: usize) -> u16
    ensures { result ≡ get_or codes place 0 }
{
    if place < COUNT { CODES[place] } else { 0 }
}
