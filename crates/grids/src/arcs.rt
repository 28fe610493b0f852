// The arcs of a grid, by their numbers.
ghost use Rattle.std.specs.Prelude.{◌≡◌, ◌*◌, ◌<◌};
ghost use Rattle.network.specs.Gridded.{node_at, grid_road, grid_arcs};
ghost use Rattle.grids.specs.Ways.{way_width, way_step, way_count, way_road};

use crate::grid::Grid;
use crate::way::{Spot, Way};
use network::road::Road;

// Mosts go from 1 to this.
const MOSTS: u32 = 5;
// Both costs take so many values: the first from zero up, the second from `BELOW` under zero.
const COSTS: u32 = 7;

const BELOW: i32 = 3;

impl Grid {
    /// How many nodes there are.
    pub(crate) fn node_count(&self) -> u32
        ensures { result ≡ self.now.rows * self.now.columns }
    {
        self.rows * self.columns
    }

    /// How many arcs there are.
    pub(crate) fn arc_count(&self) -> u32
        ensures { result ≡ grid_arcs self.now.rows self.now.columns }
    {
        self.way_count(Way::Right) + self.way_count(Way::Down)
    }

    /// How many arcs go this way.
    pub(crate) fn way_count(&self, way: Way) -> u32
        ensures { result ≡ way_count way self.now.rows self.now.columns }
    {
        match way {
            Way::Right => self.rows * (self.columns - 1),
            Way::Down => (self.rows - 1) * self.columns,
        }
    }

    /// The road that goes this way and has this number among those.
    pub(crate) fn road(&self, way: Way, number: u32) -> Road
        requires { number < way_count way self.now.rows self.now.columns }
        ensures { result ≡ way_road way self.now.columns number }
    {
        let width = self.width(way);
        let from = Spot {
            row: number / width,
            column: number % width,
        };
        let tail = self.node_at(from);
        road_from(from, tail, tail + self.step(way))
    }

    // How many arcs of a row go this way.
    fn width(&self, way: Way) -> u32
        ensures { result ≡ way_width way self.now.columns }
    {
        match way {
            Way::Right => self.columns - 1,
            Way::Down => self.columns,
        }
    }

    // How far on the next node this way stands.
    fn step(&self, way: Way) -> u32
        ensures { result ≡ way_step way self.now.columns }
    {
        match way {
            Way::Right => 1,
            Way::Down => self.columns,
        }
    }

    // The node of a place.
    fn node_at(&self, spot: Spot) -> u32
        ensures { result ≡ node_at self.now.columns spot.row spot.column }
    {
        spot.row * self.columns + spot.column
    }
}

// A road from a place, between these nodes.
fn road_from(spot: Spot, tail: u32, head: u32) -> Road
    ensures { result ≡ grid_road spot.row spot.column tail head }
{
    let Spot { row, column } = spot;
    Road {
        tail,
        head,
        least: 0,
        most: 1 + (row + 2 * column) % MOSTS,
        // kept: `i32` has no `From<u32>`, and a `try_from` with `unwrap` says no more than a cast that is proved to lose nothing
        first: ((3 * row + column) % COSTS) as i32,
        second: ((5 * row + 2 * column) % COSTS) as i32 - BELOW,
    }
}
