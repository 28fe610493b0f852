// A table of roads and stocks. Kept apart from the functions that speak of it in their contracts.
ghost use Rattle.std.specs.Prelude.{◌≡◌};
ghost use Rattle.network.specs.Tested.{row_fault};

use network::refusal::Refusal;
use network::road::Road;

/// A network over rows of the caller's: a road for each arc, a stock for each node, fixed costs 0.
/// Where the test of the rows refuses, it means one node with stock 0 and no arcs.
#[derive(Drop)]
pub struct Table<'a> {
    pub(crate) roads: &'a [Road],
    pub(crate) stocks: &'a [i32],
    /// Why the test refuses the rows, where it does.
    pub(crate) fault: Option<Refusal>,
    ghost tested: { fault ≡ row_fault roads.now stocks.now },
}
