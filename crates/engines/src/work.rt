// The records of the work rows, in which an engine leaves what the next solve may begin with.
use residual::step::Step;

/// For each arc: the chests that it carried in the last flow.
#[derive(Clone, Copy, Debug, PartialEq, Eq)]
pub struct ArcWork {
    pub flow: u32,
}

/// For each node: its step in the last forest, none for a root.
// kept: a step names its arc by number, since the rows are lent by the caller and no memory is asked for
#[derive(Clone, Copy, Debug, PartialEq, Eq)]
pub struct NodeWork {
    pub link: Option<Step>,
}
