// The network with both costs exchanged.
ghost use Rattle.std.specs.Prelude.{◌≡◌};
ghost use Rattle.std.specs.List.{slice_get};
ghost use Rattle.network.specs.Net.{Net, size_of};
ghost use Rattle.network.specs.Exchanged.{swapped, exchanged};
ghost use Rattle.network.proofs.Exchanged.{exchanged_lawful};

use network::interface::Network;
use network::road::Road;
use network::size::Size;

/// The network below with both costs of each arc and both fixed costs exchanged.
#[derive(Drop)]
pub struct Exchange<N> {
    below: N,
}

impl<N> Exchange<N> {
    /// The layer over a network.
    pub fn new(below: N) -> Exchange<N>
        ensures { result.below ≡ below }
    {
        Exchange { below }
    }
}

impl<N: Network> Network for Exchange<N> {
    ghost meaning = { λ s. exchanged (N.Network.meaning s.below) };

    ghost laws = { λ s. exchanged_lawful (N.Network.meaning s.below) (N.Network.laws s.below) };

    fn size(&mut self) -> Size {
        let size = self.below.size();
        let (first, second) = size.fixed;
        Size {
            fixed: (second, first),
            ..size
        }
    }

    fn stock(&mut self, node: usize) -> Option<i64> {
        self.below.stock(node)
    }

    fn arc(&mut self, arc: usize) -> Option<Road> {
        self.below.arc(arc).map(exchange_costs)
    }
}

fn exchange_costs(road: Road) -> Road
    ensures { result ≡ swapped road }
{
    Road {
        first: road.second,
        second: road.first,
        ..road
    }
}

/// Exchanging twice means the network below.
#[tactic(auto, using(network::proofs::Exchanged::exchanged_twice))]
pub fn exchange_twice_stands()
    ensures { (n : Net) → exchanged (exchanged n) ≡ n }
{}
