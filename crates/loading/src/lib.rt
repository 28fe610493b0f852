// Copying what a network means into rows, by asking.
#![tactic(auto)]

ghost use Rattle.std.specs.Prelude.{◌≡◌, ◌<◌, ◌≤◌, ◌++◌, List, length, drop, Some};
ghost use Rattle.std.specs.List.{slice_get};
ghost use Rattle.network.specs.Net.{Net, node_count, arc_count, size_of};

use network::interface::Network;
use network::road::Road;
use network::size::Size;

/// Copies the roads to the start of a row that has room for them, and answers how many there are.
pub fn load_roads<N: Network>(network: &mut N, row: &mut [Road]) -> usize
    requires { arc_count (N.Network.meaning network.old) ≤ length row.old }
    ensures count { result ≡ arc_count (N.Network.meaning network.old) }
    ensures same { N.Network.meaning network.new ≡ N.Network.meaning network.old }
    ensures after { row.new ≡ (N.Network.meaning network.old).roads ++ drop result row.old }
{
    load(network, row)
}

/// Copies the stocks to the start of a row that has room for them, and answers how many there are.
pub fn load_stocks<N: Network>(network: &mut N, row: &mut [i32]) -> usize
    requires { node_count (N.Network.meaning network.old) ≤ length row.old }
    ensures count { result ≡ node_count (N.Network.meaning network.old) }
    ensures same { N.Network.meaning network.new ≡ N.Network.meaning network.old }
    ensures after { row.new ≡ (N.Network.meaning network.old).stocks ++ drop result row.old }
{
    load(network, row)
}

// Copies all that a network has of one kind to the start of a row, and answers how many they are.
fn load<N: Network, T: Entry>(network: &mut N, row: &mut [T]) -> usize
    requires { length (T.entries (N.Network.meaning network.old)) ≤ length row.old }
    ensures count { result ≡ length (T.entries (N.Network.meaning network.old)) }
    ensures same { N.Network.meaning network.new ≡ N.Network.meaning network.old }
    ensures after { row.new ≡ T.entries (N.Network.meaning network.old) ++ drop result row.old }
{
    let count = T::count(network.size());
    fill(network, &mut row[..count]);
    count
}

// Fills a row with all that a network has of one kind, asked for one by one.
fn fill<N: Network, T: Entry>(network: &mut N, row: &mut [T])
    requires { length row.old ≡ length (T.entries (N.Network.meaning network.old)) }
    ensures same { N.Network.meaning network.new ≡ N.Network.meaning network.old }
    ensures after { row.new ≡ T.entries (N.Network.meaning network.old) }
{
    // kept: a chain would ask by a closure, and nothing is known of the network that a closure borrowed
    for (i, entry) in row.iter_mut().enumerate() {
        *entry = T::entry(network, i);
    }
}

// What a network has one of for each node or each arc.
trait Entry: Copy {
    ghost entries: { Net → List Self };

    fn count(size: Size) -> usize
        ensures { (n : Net) → size ≡ size_of n → result ≡ length (entries n) };

    fn entry<N: Network>(network: &mut N, i: usize) -> Self
        requires { i < length (entries (N.Network.meaning network.old)) }
        ensures value { slice_get (entries (N.Network.meaning network.old)) i ≡ Some result }
        ensures same { N.Network.meaning network.new ≡ N.Network.meaning network.old };
}

impl Entry for Road {
    ghost entries = { λ n. n.roads };

    fn count(size: Size) -> usize {
        size.arcs
    }

    fn entry<N: Network>(network: &mut N, i: usize) -> Road {
        network.arc(i).unwrap()
    }
}

// A stock is within the law of its node, so it fits in 32 bits.
impl Entry for i32 {
    ghost entries = { λ n. n.stocks };

    fn count(size: Size) -> usize {
        size.nodes
    }

    fn entry<N: Network>(network: &mut N, i: usize) -> i32 {
        let stock = network.stock(i).unwrap();
        i32::try_from(stock).unwrap()
    }
}
