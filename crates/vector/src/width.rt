// A width of tables, as a type.
ghost use Rattle.std.specs.Prelude.{◌≤◌};
ghost use Rattle.paper.specs.Devices.{devices};

// N columns has each vector of a row, at most sixteen. Of tables there are two widths; what is done at a width is written once.
#[derive(Clone, Copy)]
pub struct Width<const N: usize> {
    ghost few: { N ≤ devices },
}

impl<const N: usize> Width<N> {
    // A width of at most sixteen columns.
    pub fn of() -> Width<N>
        requires { N ≤ devices }
    {
        Width {}
    }
}
