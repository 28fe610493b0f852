// The network below as it is once the least of every arc has gone its way.
ghost use Rattle.std.specs.Prelude.{◌≡◌};
ghost use Rattle.network.specs.Floored.{floored};
ghost use Rattle.network.proofs.Floored.{floored_lawful};

use crate::sums::{least_costs, stock_left};
use network::interface::Network;
use network::road::Road;
use network::size::Size;

/// The network below with every least taken away: each arc carries from 0 to what is left of its most, the least chests
/// have left their tails and arrived at their heads, and what they cost is fixed.
#[derive(Drop)]
pub struct Floor<N> {
    below: N,
}

impl<N> Floor<N> {
    /// The layer over `below`.
    pub fn new(below: N) -> Floor<N>
        ensures { result.below ≡ below }
    {
        Floor { below }
    }
}

impl<N: Network> Network for Floor<N> {
    ghost meaning = { λ s. floored (N.Network.meaning s.below) };

    ghost laws = { λ s. floored_lawful (N.Network.meaning s.below) (N.Network.laws s.below) };

    fn size(&mut self) -> Size {
        let size = self.below.size();
        let (first, second) = least_costs(&mut self.below, size.arcs);
        Size {
            fixed: (size.fixed.0 + first, size.fixed.1 + second),
            ..size
        }
    }

    fn stock(&mut self, node: usize) -> Option<i64> {
        let stock = self.below.stock(node)?;
        Some(stock_left(&mut self.below, node, stock))
    }

    fn arc(&mut self, arc: usize) -> Option<Road> {
        self.below.arc(arc).map(|road| Road {
            least: 0,
            most: road.most - road.least,
            ..road
        })
    }
}
