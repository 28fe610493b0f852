// The ways of the arcs, and the places where they begin. Kept apart from the functions that speak of them in their contracts.
ghost use Rattle.std.specs.Prelude.{◌<◌};
ghost use Rattle.network.specs.Limits.{max_side};

/// Where an arc goes: to the next node on the right, or to the next below.
#[derive(Clone, Copy, Debug, PartialEq, Eq)]
pub(crate) enum Way {
    Right,
    Down,
}

/// A place in rows and columns of places.
#[derive(Clone, Copy)]
pub(crate) struct Spot {
    pub(crate) row: u32,
    pub(crate) column: u32,
    ghost inside: { (row < max_side) × (column < max_side) },
}
