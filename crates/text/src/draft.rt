// A consignment that is being read. Kept apart from the functions that speak of it in their contracts.
ghost use Rattle.std.specs.Prelude.{◌≡◌, ◌<◌, ◌≤◌, length};
ghost use Rattle.arrayvec.specs.ArrayVec.{array_vec_len};
ghost use Rattle.network.specs.Limits.{max_nodes, max_arcs};

use crate::sizes::Sizes;
use arrayvec::ArrayVec;
use network::limits::{MAX_ARCS, MAX_NODES};
use network::road::Road;

/// What the lines have said so far. Nothing goes into a caller's rows before all of them are read.
#[derive(Drop)]
pub struct Draft {
    pub(crate) sizes: Sizes,
    /// The stock of each node that has been named.
    pub(crate) stocks: [Option<i32>; MAX_NODES],
    pub(crate) roads: ArrayVec<Road, MAX_ARCS>,
    ghost some: { 0 < sizes.nodes },
    ghost nodes_few: { sizes.nodes ≤ max_nodes },
    ghost arcs_few: { sizes.arcs ≤ max_arcs },
    ghost counted: { array_vec_len roads ≤ sizes.arcs },
    ghost stocks_len: { length stocks ≡ max_nodes },
}
