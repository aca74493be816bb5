// Monthly mean temperatures, in tenths of a degree: whether each is in its range.
ghost use Rattle.std.specs.Prelude.{◌≡◌};
ghost use Rattle.vehicle_fields.specs.Fields.{temperature_in_range, temperatures_in_range};

fn temperature_in_range(t: i16) -> bool
    ensures { result ≡ temperature_in_range t }
{
    (-600..=600).contains(&t)
}

pub fn temperatures_in_range(ts: [i16; 12]) -> bool
    ensures { result ≡ temperatures_in_range ts }
{
    ts.iter().fold(true, |ok, t| ok & temperature_in_range(*t))
}
