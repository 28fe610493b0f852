// Sums over the leasts of a network. Its laws keep each of them in range.
ghost use Rattle.std.specs.Prelude.{◌≡◌, ◌<◌, pos, ◌*ℤ◌, Some};
ghost use Rattle.std.specs.List.{slice_get};
ghost use Rattle.network.specs.Floored.{stock_left, least_cost};
ghost use Rattle.network.specs.Net.{arc_count};
ghost use Rattle.floors.specs.Leasts.{leasts_at};

use network::interface::Network;
use network::road::{End, Road};

// What the leasts cost, by the first and by the second cost.
pub fn least_costs<N: Network>(network: &mut N, arcs: usize) -> (i64, i64)
    requires { arcs ≡ arc_count (N.Network.meaning network.old) }
    ensures value { result ≡ (least_cost (λ e. e.first) (N.Network.meaning network.old).roads, least_cost (λ e. e.second) (N.Network.meaning network.old).roads) }
    ensures same { N.Network.meaning network.new ≡ N.Network.meaning network.old }
{
    let mut first = 0;
    let mut second = 0;
    // kept: `sum` or `fold` over a closure that asks the network leaves the clause `same` open, since nothing is known of what it borrowed
    for i in 0..arcs {
        let road = road_of(network, i);
        first += cost_of(road.least, road.first);
        second += cost_of(road.least, road.second);
    }
    (first, second)
}

// What is left of a node's stock.
pub fn stock_left<N: Network>(network: &mut N, node: usize, stock: i64) -> i64
    requires { Some stock ≡ slice_get (N.Network.meaning network.old).stocks node }
    ensures value { result ≡ stock_left (N.Network.meaning network.old).roads node stock }
    ensures same { N.Network.meaning network.new ≡ N.Network.meaning network.old }
{
    let arcs = network.size().arcs;
    let gone = leasts_at(network, arcs, End::Tail, node);
    let come = leasts_at(network, arcs, End::Head, node);
    stock - i64::from(gone) + i64::from(come)
}

// The leasts of the arcs that have the node at this end.
// kept apart from the sums of costs: one loop for both would have to be given the type of its sum and the bound that each of two laws sets it
fn leasts_at<N: Network>(network: &mut N, arcs: usize, end: End, node: usize) -> u32
    requires { arcs ≡ arc_count (N.Network.meaning network.old) }
    ensures value { result ≡ leasts_at end node (N.Network.meaning network.old).roads }
    ensures same { N.Network.meaning network.new ≡ N.Network.meaning network.old }
{
    let mut sum = 0;
    // kept: `sum` or `fold` over a closure that asks the network leaves the clause `same` open, since nothing is known of what it borrowed
    for i in 0..arcs {
        let road = road_of(network, i);
        if road.end_node(end) == node {
            sum += road.least;
        }
    }
    sum
}

// The road of an arc that is there.
fn road_of<N: Network>(network: &mut N, arc: usize) -> Road
    requires { arc < arc_count (N.Network.meaning network.old) }
    ensures value { Some result ≡ slice_get (N.Network.meaning network.old).roads arc }
    ensures same { N.Network.meaning network.new ≡ N.Network.meaning network.old }
{
    network.arc(arc).unwrap()
}

// What so many chests cost.
fn cost_of(chests: u32, cost: i32) -> i64
    ensures { result ≡ pos chests *ℤ cost }
{
    i64::from(chests) * i64::from(cost)
}
