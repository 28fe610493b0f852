// The sizes of a network.

/// How many nodes and arcs the first line of a text names.
// kept beside a network's `Size`, which has fixed costs too, and with no ghost field on its range, which would be asked of whoever makes one
#[derive(Clone, Copy, Debug, PartialEq, Eq)]
pub struct Sizes {
    pub nodes: usize,
    pub arcs: usize,
}
