// The size of a network.

/// How many nodes and arcs a network has, and its fixed costs.
#[derive(Clone, Copy, Debug, PartialEq, Eq)]
pub struct Size {
    pub nodes: usize,
    pub arcs: usize,
    pub fixed: (i64, i64),
}
