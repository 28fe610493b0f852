// The network below with lower mosts on the arcs that are capped.
ghost use Rattle.std.specs.Prelude.{◌≡◌, ◌<◌, true, Some};
ghost use Rattle.std.specs.List.{slice_get};
ghost use Rattle.network.specs.Capped.{within, capped};
ghost use Rattle.network.proofs.Capped.{capped_lawful};
ghost use Rattle.caps.specs.Caps.{cap_of, cap_fault, place_for, IsTable, Recapped, Answers, Does, Means, Lowers};

use crate::asks::{bounded_by, idle_place};
use crate::places::CapEntry;
use crate::table::CapTable;
use network::interface::Network;
use network::refusal::Refusal;
use network::road::Road;
use network::size::Size;

/// A network whose capped arcs have the amount of their cap as their most.
///
/// An entry that names no arc below, or whose amount that arc may not carry, caps nothing.
#[derive(Drop)]
pub struct Cap<N> {
    below: N,
    table: CapTable,
    ghost kept: { IsTable table },
}

impl<N> Cap<N> {
    /// The network below under the caps of the table.
    pub fn new(below: N, table: CapTable) -> Cap<N>
        ensures { (k : _) × (result ≡ record { below = below; table = table; kept = k }) }
    {
        // The call tells what every table keeps.
        let _ = table.places();
        Cap { below, table }
    }
}

impl<N: Network> Network for Cap<N> {
    ghost meaning = { λ s. capped (cap_of s.table) (N.Network.meaning s.below) };

    ghost laws = { λ s. capped_lawful (cap_of s.table) (N.Network.meaning s.below) (N.Network.laws s.below) };

    #[tactic(auto, using(network::proofs::Capped::length_bounded))]
    fn size(&mut self) -> Size {
        self.below.size()
    }

    fn stock(&mut self, node: usize) -> Option<i64> {
        self.below.stock(node)
    }

    #[tactic(auto, using(network::proofs::Capped::nth_bounded))]
    fn arc(&mut self, arc: usize) -> Option<Road> {
        self.below
            .arc(arc)
            .map(|road| bounded_by(self.table.amount(arc), road))
    }
}

impl<N: Network> Cap<N> {
    /// Makes the amount the most of the arc. At the most below, the cap is lifted and its place is free again.
    ///
    /// Refused where there is no such arc below, where that arc may not carry the amount, or where every place caps another arc; then nothing changes.
    pub fn cap(&mut self, arc: usize, amount: u32) -> Result<(), Refusal>
        ensures done { let net = N.Network.meaning self.old.below in Does result self.old.table self.new.table net.roads arc amount }
        ensures meant { let net = N.Network.meaning self.old.below in Means result (capped (cap_of self.old.table) net) (capped (cap_of self.new.table) (N.Network.meaning self.new.below)) net.roads arc amount }
        ensures answer { let net = N.Network.meaning self.old.below in Answers result (cap_fault self.old.table net.roads arc amount) }
        ensures same { N.Network.meaning self.new.below ≡ N.Network.meaning self.old.below }
    {
        let road = self.below.arc(arc).ok_or(Refusal::NoSuchArc)?;
        if !road.may_carry(amount) {
            return Err(Refusal::CapRange);
        }
        if amount == road.most {
            self.lift(arc, road);
            return Ok(());
        }
        self.lower(arc, amount, road)
    }

    /// Lifts the cap on the arc, if there is one.
    fn lift(&mut self, arc: usize, road: Road)
        requires { Some road ≡ slice_get (N.Network.meaning self.old.below).roads arc }
        ensures table { Recapped self.old.table self.new.table (N.Network.meaning self.old.below).roads arc road.most road }
        ensures same { self.new.below ≡ self.old.below }
    {
        if let Some(place) = self.table.find(arc) {
            self.table.clear(place);
        }
    }

    /// Caps the arc below its most there.
    fn lower(&mut self, arc: usize, amount: u32, road: Road) -> Result<(), Refusal>
        requires there { Some road ≡ slice_get (N.Network.meaning self.old.below).roads arc }
        requires fit { within road amount ≡ true }
        requires low { amount < road.most }
        ensures done { Lowers result self.old.table self.new.table (N.Network.meaning self.old.below).roads arc amount road }
        ensures same { N.Network.meaning self.new.below ≡ N.Network.meaning self.old.below }
    {
        let place = self.place_for(arc).ok_or(Refusal::CapsFull)?;
        let entry = CapEntry {
            arc: u16::try_from(arc).unwrap(),
            amount: u16::try_from(amount).unwrap(),
        };
        self.table.put(place, entry);
        Ok(())
    }

    /// The place for a cap on the arc: its own, or the lowest that is free or whose entry caps nothing.
    fn place_for(&mut self, arc: usize) -> Option<usize>
        ensures value { result ≡ place_for self.old.table (N.Network.meaning self.old.below).roads arc }
        ensures table { self.new.table ≡ self.old.table }
        ensures kept { IsTable self.old.table }
        ensures same { N.Network.meaning self.new.below ≡ N.Network.meaning self.old.below }
    {
        // kept: `or_else` takes the closure that asks, and then no proof knows that the network it gives back means the same
        if let Some(place) = self.table.find(arc) {
            return Some(place);
        }
        idle_place(&mut self.below, &self.table)
    }
}
