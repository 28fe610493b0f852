// The interface of an engine.
ghost use Rattle.std.specs.Prelude.{◌≡◌, suc, ◌≤◌, length, take, drop, OnOk, OnErr};
ghost use Rattle.network.specs.Net.{Lawful, rows_net};
ghost use Rattle.network.specs.declared.refusal.Refusal.TheVariants as Refusal;
ghost use Rattle.worths.specs.Values.{row_of};
ghost use Rattle.flows.specs.Flows.{HasNoFlow};
ghost use Rattle.engines.specs.Solved.{Worthy, Solved};

use crate::work::{ArcWork, NodeWork};
use network::refusal::Refusal;
use network::road::Road;
use worths::worth::Worth;

/// The network has no flow.
// kept without a text of its own: it is told as the refusal that it turns into
#[derive(Clone, Copy, Debug, PartialEq, Eq)]
pub struct NoFlow;

/// What the planner tells a caller then.
impl From<NoFlow> for Refusal {
    ghost from_gives = { λ _ r. r ≡ Refusal.NoFlow };

    fn from(_found: NoFlow) -> Refusal {
        Refusal::NoFlow
    }
}

/// Finds a flow that is best for given worths, with prices that prove it, or finds that there is no flow.
///
/// The work rows are lent by the caller: a record for each arc, and one for each node and one more. Their contents at entry are
/// arbitrary; what an engine leaves there may make the next solve quicker, and nothing else depends on it.
pub trait Engine {
    /// If there is a flow, the first entries of `flow` are one, and those of `prices` fit it; if not, nothing is said of them. Entries
    /// past the arcs, past the nodes, and past the nodes and one, stay as they are.
    // kept: all rows are handed to an engine as slices, by a rule of the project, and so no struct holds them.
    fn solve<W: Worth>(
        &mut self,
        roads: &[Road],
        stocks: &[i32],
        worths: &[W],
        arcs: &mut [ArcWork],
        nodes: &mut [NodeWork],
        flow: &mut [u32],
        prices: &mut [W],
    ) -> Result<(), NoFlow>
        requires lawful { Lawful (rows_net roads.now stocks.now) }
        requires worthed { length worths.now ≡ length roads.now }
        requires worthy { Worthy roads.now (row_of W.Worth.value worths.now) }
        requires arcs { length roads.now ≤ length arcs.old }
        requires nodes { suc (length stocks.now) ≤ length nodes.old }
        requires flow { length roads.now ≤ length flow.old }
        requires prices { length stocks.now ≤ length prices.old }
        ensures found { OnOk result (Solved (rows_net roads.now stocks.now) (row_of W.Worth.value worths.now) (take (length roads.now) flow.new) (row_of W.Worth.value prices.new)) }
        ensures none { OnErr result (HasNoFlow (rows_net roads.now stocks.now)) }
        ensures rest { (drop (length roads.now) flow.new ≡ drop (length roads.now) flow.old) × ((drop (length stocks.now) prices.new ≡ drop (length stocks.now) prices.old) × ((drop (length roads.now) arcs.new ≡ drop (length roads.now) arcs.old) × (drop (suc (length stocks.now)) nodes.new ≡ drop (suc (length stocks.now)) nodes.old))) };
}
