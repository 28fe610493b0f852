// What a grid holds. Kept apart from the functions that speak of it in their contracts.
ghost use Rattle.std.specs.Prelude.{◌≤◌};
ghost use Rattle.network.specs.Gridded.{Side};
ghost use Rattle.network.specs.Limits.{max_grid_chests};

/// Nodes in rows and columns, with arcs to the right and down. All chests go from the first node to the last.
#[derive(Clone, Copy, Debug, PartialEq, Eq)]
pub struct Grid {
    pub(crate) rows: u32,
    pub(crate) columns: u32,
    pub(crate) chests: u32,
    ghost tall: { Side rows },
    ghost wide: { Side columns },
    ghost few: { chests ≤ max_grid_chests },
}
