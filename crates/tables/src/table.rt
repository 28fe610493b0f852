// A table is a network.
ghost use Rattle.std.specs.Prelude.{◌≡◌};
ghost use Rattle.std.proofs.Common.{ap};
ghost use Rattle.network.specs.Net.{size_of, rows_net};
ghost use Rattle.network.specs.Tested.{table_net, passed, row_fault};
ghost use Rattle.network.proofs.Tested.{table_lawful};

use crate::held::Table;
use crate::test::row_fault;
use network::interface::Network;
use network::refusal::Refusal;
use network::road::Road;
use network::size::Size;

impl<'a> Table<'a> {
    /// The table over these rows.
    pub fn over(roads: &'a [Road], stocks: &'a [i32]) -> Table<'a>
        ensures rows { (result.roads.now ≡ roads.now) × (result.stocks.now ≡ stocks.now) }
        ensures fault { result.fault ≡ row_fault roads.now stocks.now }
    {
        let fault = row_fault(roads, stocks);
        Table {
            roads,
            stocks,
            fault,
        }
    }

    /// Why the test refuses the rows, where it does.
    pub fn fault(&self) -> Option<Refusal>
        ensures { result ≡ row_fault self.now.roads.now self.now.stocks.now }
    {
        self.fault
    }

    // The rows that the table means: where the caller's are at fault, one node with stock 0 and no arcs.
    fn rows(&self) -> (&'a [Road], &'a [i32])
        ensures { table_net (passed self.now.fault) self.now.roads.now self.now.stocks.now ≡ rows_net result.0.now result.1.now }
    {
        match self.fault {
            None => (self.roads, self.stocks),
            Some(_) => (&[], &[0]),
        }
    }
}

impl<'a> Network for Table<'a> {
    ghost meaning = { λ s. table_net (passed s.fault) s.roads.now s.stocks.now };

    ghost laws = { λ s. table_lawful (passed s.fault) s.roads.now s.stocks.now (ap passed s.tested) };

    fn size(&mut self) -> Size {
        let (roads, stocks) = self.rows();
        Size {
            nodes: stocks.len(),
            arcs: roads.len(),
            fixed: (0, 0),
        }
    }

    fn stock(&mut self, node: usize) -> Option<i64> {
        let (_, stocks) = self.rows();
        stocks.get(node).copied().map(i64::from)
    }

    fn arc(&mut self, arc: usize) -> Option<Road> {
        let (roads, _) = self.rows();
        roads.get(arc).copied()
    }
}
