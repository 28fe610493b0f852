// Roads.
ghost use Rattle.std.specs.Prelude.{◌≡◌, Decides};
ghost use Rattle.network.specs.Arcs.{road_at};
ghost use Rattle.network.specs.Capped.{within};
ghost use Rattle.network.specs.Roads.{Passable, end_node, other_end};
ghost use Rattle.network.specs.Tested.{is_passable};

/// A road for chests, the data of an arc: from `tail` to `head` it carries from `least` to `most` chests, each at two costs.
///
/// The default is a road that carries nothing, from the first node to itself.
#[repr(C)]
#[derive(Clone, Copy, Debug, Default, PartialEq, Eq)]
pub struct Road {
    pub tail: u32,
    pub head: u32,
    pub least: u32,
    pub most: u32,
    /// Freight for each chest.
    pub first: i32,
    /// Ageing for each chest.
    pub second: i32,
}

/// An end of a road: chests leave its tail and arrive at its head.
#[derive(Clone, Copy, Debug, PartialEq, Eq)]
pub enum End {
    Tail,
    Head,
}

impl End {
    /// The other end.
    pub fn other(self) -> End
        ensures { result ≡ other_end self }
    {
        match self {
            End::Tail => End::Head,
            End::Head => End::Tail,
        }
    }
}

impl Road {
    /// The road of an arc in a row; past its end the default.
    pub fn at(roads: &[Road], arc: usize) -> Road
        ensures { result ≡ road_at roads.now arc }
    {
        roads.get(arc).copied().unwrap_or_default()
    }

    /// The node at this end.
    pub fn end_node(&self, end: End) -> usize
        ensures { result ≡ end_node end self.now }
    {
        // kept: `usize` has no `From<u32>`, and a `try_from` with `unwrap` says no more than a cast that is proved to lose nothing; here alone an end of a road is cast to count in a row
        match end {
            End::Tail => self.tail as usize,
            End::Head => self.head as usize,
        }
    }

    /// Whether the road may carry so many chests.
    pub fn may_carry(&self, amount: u32) -> bool
        ensures { result ≡ within self.now amount }
    {
        (self.least..=self.most).contains(&amount)
    }

    /// Whether the road goes somewhere, and some number of chests can take it.
    pub fn is_passable(&self) -> bool
        ensures value { result ≡ is_passable self.now }
        ensures decides { Decides result (Passable self.now) }
    {
        self.tail != self.head && self.least <= self.most
    }
}
