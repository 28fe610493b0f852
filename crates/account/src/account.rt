// What is counted of a consignment.
ghost use Rattle.std.specs.Prelude.{◌≡◌, ◌==◌};

/// The account of a consignment.
#[derive(Clone, Copy, Debug, PartialEq, Eq)]
pub struct Account {
    pub nodes: usize,
    pub arcs: usize,
    /// Chests that nodes offer.
    pub offered: u128,
    /// Chests that nodes want.
    pub wanted: u128,
    /// How many nodes offer chests.
    pub offering: usize,
    /// How many nodes want chests.
    pub wanting: usize,
    /// For each cost, the sum over the arcs of the most times the cost's distance from zero.
    pub reach: (u128, u128),
}

impl Account {
    /// Whether as many chests are offered as are wanted.
    pub fn balanced(&self) -> bool
        ensures { result ≡ (self.now.offered == self.now.wanted) }
    {
        self.offered == self.wanted
    }
}
