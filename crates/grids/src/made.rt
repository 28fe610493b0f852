// Making a grid.
ghost use Rattle.std.specs.Prelude.{Decides};
ghost use Rattle.network.specs.Gridded.{Side};
ghost use Rattle.grids.specs.Made.{Made};

use crate::grid::Grid;
use network::limits::{MAX_GRID_CHESTS, MAX_SIDE};
use network::refusal::Refusal;

impl Grid {
    /// The grid of so many rows and columns, each from 1 to 14, and from 0 to 1,000 chests.
    ///
    /// A number outside its range is refused by its place among the three; the first of them is told.
    pub fn new(rows: u32, columns: u32, chests: u32) -> Result<Grid, Refusal>
        ensures { Made rows columns chests result }
    {
        // kept: the list of refusals tells by 1, 2 or 3 which number it is
        if !is_side(rows) {
            return Err(Refusal::Number(1));
        }
        if !is_side(columns) {
            return Err(Refusal::Number(2));
        }
        if chests > MAX_GRID_CHESTS {
            return Err(Refusal::Number(3));
        }
        Ok(Grid {
            rows,
            columns,
            chests,
        })
    }
}

// Whether there may be so many rows or columns.
fn is_side(count: u32) -> bool
    ensures { Decides result (Side count) }
{
    (1..=MAX_SIDE).contains(&count)
}
