// The account of any network, by asking it.
ghost use Rattle.std.specs.Prelude.{◌≡◌};
ghost use Rattle.account.specs.Accounts.{account_of};

use crate::account::Account;
use crate::sums::account_of;
use loading::{load_roads, load_stocks};
use network::interface::Network;
use network::limits::{MAX_ARCS, MAX_NODES};
use network::road::Road;

/// The account of what a network means.
pub fn account_of_network<N: Network>(network: &mut N) -> Account
    ensures value { result ≡ account_of (N.Network.meaning network.old).roads (N.Network.meaning network.old).stocks }
    ensures same { N.Network.meaning network.new ≡ N.Network.meaning network.old }
{
    // kept: arrays with a count for each, since the loaders fill rows that are handed in, by a rule of the project
    let mut roads = [Road::default(); MAX_ARCS];
    let mut stocks = [0; MAX_NODES];
    let arcs = load_roads(network, &mut roads);
    let nodes = load_stocks(network, &mut stocks);
    account_of(&roads[..arcs], &stocks[..nodes])
}
