// Reduced worths, and whether prices fit a flow. A row is read as zero past its end, so that no call owes a length.
ghost use Rattle.std.specs.Prelude.{◌≡◌, ℕ, ◌<◌, length, Decides, slice_index};
ghost use Rattle.network.specs.Arcs.{road_at};
ghost use Rattle.worths.specs.Kinds.{ranked};
ghost use Rattle.worths.specs.Values.{NearPair, wrapped_pair, row_of, max_exact};
ghost use Rattle.worths.specs.Fit.{Fits, FitsBy, FitsArc};
ghost use Rattle.worths.specs.Rows.{reduced_of};

use crate::worth::Worth;
use network::road::{End, Road};
use std::cmp::Ordering;

/// What stands at a place of a row, zero past its end.
pub fn entry<W: Worth>(row: &[W], i: usize) -> W
    ensures { W.Worth.value result ≡ row_of W.Worth.value row.now i }
{
    row.get(i).copied().unwrap_or(W::zero())
}

/// The reduced worth of an arc: its worth plus its tail's price less its head's. It is exact wherever the true one is
/// within `MAX_EXACT`, whatever the sums on the way; beyond it wraps.
// kept: rows are handed in as slices, here and below, by a rule of the project, and so no struct holds a network with its worths and prices.
pub fn reduced<W: Worth>(roads: &[Road], worths: &[W], prices: &[W], arc: usize) -> W
    ensures exact { NearPair max_exact (reduced_of W.Worth.value roads.now worths.now prices.now arc) → W.Worth.value result ≡ reduced_of W.Worth.value roads.now worths.now prices.now arc }
    ensures wraps { W.Worth.value result ≡ wrapped_pair (reduced_of W.Worth.value roads.now worths.now prices.now arc) }
{
    let road = Road::at(roads, arc);
    let tail = entry(prices, road.end_node(End::Tail));
    let head = entry(prices, road.end_node(End::Head));
    entry(worths, arc).add(tail).add(head.negate())
}

/// Whether the prices fit the flow: each arc of reduced worth above zero carries its least, each below zero its most.
pub fn fits<W: Worth>(roads: &[Road], worths: &[W], prices: &[W], flow: &[u32]) -> bool
    ensures exact { ((a : ℕ) → a < length roads.now → NearPair max_exact (reduced_of W.Worth.value roads.now worths.now prices.now a)) → Decides result (Fits ranked roads.now (row_of W.Worth.value worths.now) (row_of W.Worth.value prices.now) flow.now) }
    ensures wraps { Decides result (FitsBy ranked roads.now (λ a. wrapped_pair (reduced_of W.Worth.value roads.now worths.now prices.now a)) flow.now) }
{
    roads.iter().enumerate().all(
        |(arc, road)| -> bool
            ensures { Decides result (FitsArc ranked road.entry.now (wrapped_pair (reduced_of W.Worth.value roads.entry.now worths.entry.now prices.entry.now arc)) (slice_index flow.entry.now arc)) }
        {
            let chests = flow.get(arc).copied().unwrap_or(0);
            match reduced(roads, worths, prices, arc).compare(W::zero()) {
                Ordering::Greater => chests == road.least,
                Ordering::Less => chests == road.most,
                Ordering::Equal => true,
            }
        },
    )
}
