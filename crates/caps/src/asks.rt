// What is asked of the network below.
ghost use Rattle.std.specs.Prelude.{◌≡◌, position};
ghost use Rattle.network.specs.Capped.{bounded};
ghost use Rattle.caps.specs.Caps.{idle};

use crate::places::CapEntry;
use crate::table::CapTable;
use network::interface::Network;
use network::road::Road;

/// The road with the amount as its most, if it may carry that.
pub fn bounded_by(amount: Option<u16>, road: Road) -> Road
    ensures { result ≡ bounded amount road }
{
    match amount.map(u32::from) {
        Some(most) if road.may_carry(most) => Road { most, ..road },
        _ => road,
    }
}

/// Whether the place is free, or its entry caps nothing over the network.
fn is_idle<N: Network>(below: &mut N, place: Option<CapEntry>) -> bool
    ensures value { result ≡ idle (N.Network.meaning below.old).roads place }
    ensures same { N.Network.meaning below.new ≡ N.Network.meaning below.old }
{
    // kept: as in `idle_place`, no closure asks the network
    let Some(entry) = place else {
        return true;
    };
    below
        .arc(usize::from(entry.arc))
        .is_none_or(|road| !road.may_carry(u32::from(entry.amount)))
}

/// The lowest place that is free or whose entry caps nothing over the network.
pub fn idle_place<N: Network>(below: &mut N, table: &CapTable) -> Option<usize>
    ensures value { result ≡ position (idle (N.Network.meaning below.old).roads) table.now }
    ensures same { N.Network.meaning below.new ≡ N.Network.meaning below.old }
{
    // kept: `position` takes the closure that asks, and then no proof knows that the network it gives back means the same
    for (place, entry) in table.places().iter().enumerate() {
        if is_idle(below, *entry) {
            return Some(place);
        }
    }
    None
}
