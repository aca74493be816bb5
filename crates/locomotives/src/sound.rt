// A locomotive that has been tested to be in range, as a type that holds so.
ghost use Rattle.std.specs.Prelude.{◌≡◌, true};
ghost use Rattle.locomotive_fields.specs.Fields.{locomotive_in_range};

use locomotive_fields::Locomotive;

#[derive(Clone, Copy)]
pub(crate) struct Sound {
    pub(crate) locomotive: Locomotive,
    ghost ranged: { locomotive_in_range locomotive ≡ true },
}
