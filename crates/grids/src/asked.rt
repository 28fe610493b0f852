// A grid as a network.
ghost use Rattle.std.specs.Prelude.{◌≡◌, ◌*◌, ◌<◌, SomeIff};
ghost use Rattle.network.specs.Gridded.{grid_arcs, grid_arc, grid_stock, gridded};
ghost use Rattle.network.proofs.Gridded.{gridded_lawful};

use crate::grid::Grid;
use crate::way::Way;
use network::interface::Network;
use network::road::Road;
use network::size::Size;

impl Network for Grid {
    ghost meaning = { λ s. gridded s.rows s.columns s.chests };

    ghost laws = { λ s. gridded_lawful s.rows s.columns s.chests s.tall s.wide s.few };

    // kept: `usize` has no `From<u32>`, and a `try_from` with `unwrap` says no more than a cast that is proved to lose nothing
    fn size(&mut self) -> Size {
        Size {
            nodes: self.node_count() as usize,
            arcs: self.arc_count() as usize,
            fixed: (0, 0),
        }
    }

    fn stock(&mut self, node: usize) -> Option<i64> {
        below(node, self.node_count()).map(|node| self.stock_of(node))
    }

    fn arc(&mut self, arc: usize) -> Option<Road> {
        below(arc, self.arc_count()).map(|arc| self.road_of(arc))
    }
}

impl Grid {
    // The stock of a node of the grid: the first offers all chests, and the last wants them.
    fn stock_of(&self, node: u32) -> i64
        requires { node < self.now.rows * self.now.columns }
        ensures { result ≡ grid_stock (self.now.rows * self.now.columns) self.now.chests node }
    {
        let offers = if node == 0 { self.chests } else { 0 };
        let wants = if node + 1 == self.node_count() {
            self.chests
        } else {
            0
        };
        i64::from(offers) - i64::from(wants)
    }

    // The road of an arc of the grid: those to the right come first.
    fn road_of(&self, arc: u32) -> Road
        requires { arc < grid_arcs self.now.rows self.now.columns }
        ensures { result ≡ grid_arc self.now.rows self.now.columns arc }
    {
        match arc.checked_sub(self.way_count(Way::Right)) {
            None => self.road(Way::Right, arc),
            Some(number) => self.road(Way::Down, number),
        }
    }
}

// The number, where it is below the count.
fn below(number: usize, count: u32) -> Option<u32>
    ensures { SomeIff result (number < count) number }
{
    u32::try_from(number).ok().filter(|number| *number < count)
}
