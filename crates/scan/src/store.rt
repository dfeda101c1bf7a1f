// The objects that values may name.

ghost use Rattle.std.specs.Prelude.{◌≤◌};
ghost use Rattle.cells.specs.Cells.{room};

// The store up to a place: what a handle names stands below it.
#[derive(Clone, Copy)]
pub struct Objects<'a> {
    pub store: &'a [u8],
    pub below: usize,
    // The place is one of the store, or its end.
    pub ghost inside: { below ≤ room store.now },
}
