// Every limit of a consignment, once. `specs/Limits.antt` has the same numbers for the contracts.
ghost use Rattle.std.specs.Prelude.{◌≡◌};
ghost use Rattle.network.specs.Limits.{max_nodes, max_arcs, max_stock, max_most, max_cost, max_text, max_node, max_reach, max_side, max_grid_chests};

/// Nodes of a network: from 1 to this.
pub const MAX_NODES: usize = 200;
/// Arcs of a network: from 0 to this.
pub const MAX_ARCS: usize = 1_000;
/// Distance of a node's stock from zero.
pub const MAX_STOCK: u32 = 1_000_000;
/// Least and most of an arc.
pub const MAX_MOST: u32 = 1_000;
/// Distance of a cost from zero.
pub const MAX_COST: u32 = 1_000;
/// Bytes of a text.
pub const MAX_TEXT: usize = 65_536;

/// At each node, the stock's distance from zero plus the mosts of the arcs that touch it.
pub const MAX_NODE: u32 = 2_000_000;
/// For each cost, the fixed cost's distance from zero plus the sum of most × the cost's distance from zero.
pub const MAX_REACH: u64 = 1_000_000_000;

/// Rows and columns of a grid: from 1 to this.
pub const MAX_SIDE: u32 = 14;
/// Chests of a grid: from 0 to this.
pub const MAX_GRID_CHESTS: u32 = 1_000;

/// All limits at once.
#[derive(Clone, Copy)]
pub struct Limits {
    pub nodes: usize,
    pub arcs: usize,
    pub stock: u32,
    pub most: u32,
    pub cost: u32,
    pub text: usize,
    pub node: u32,
    pub reach: u64,
    pub side: u32,
    pub chests: u32,
}

/// The limits of the code, which are those of the contracts.
pub fn all_limits() -> Limits
    ensures { result ≡ record { nodes = max_nodes; arcs = max_arcs; stock = max_stock; most = max_most; cost = max_cost; text = max_text; node = max_node; reach = max_reach; side = max_side; chests = max_grid_chests } }
{
    Limits {
        nodes: MAX_NODES,
        arcs: MAX_ARCS,
        stock: MAX_STOCK,
        most: MAX_MOST,
        cost: MAX_COST,
        text: MAX_TEXT,
        node: MAX_NODE,
        reach: MAX_REACH,
        side: MAX_SIDE,
        chests: MAX_GRID_CHESTS,
    }
}
