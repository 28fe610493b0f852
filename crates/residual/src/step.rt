// Residual steps: where one leads, how many chests can still go over it, and pushing some.
ghost use Rattle.std.specs.Prelude.{◌≡◌, ◌<◌, ◌≤◌, length};
ghost use Rattle.residual.specs.Steps.{start, finish, flip, room, pushed, Bounded};

use network::road::{End, Road};

/// A step of the residual graph: over an arc, from this end to the other.
#[derive(Clone, Copy, Debug, PartialEq, Eq)]
pub struct Step {
    // kept at 32 bits, as the ends of a road are, and cast where it counts in a row: `usize` has no `From<u32>`, and a `try_from` with `unwrap` says no more than a cast that is proved to lose nothing
    pub arc: u32,
    pub from: End,
}

impl Step {
    /// The node that it leaves.
    pub fn start(self, roads: &[Road]) -> usize
        ensures { result ≡ start roads.now self }
    {
        Road::at(roads, self.arc as usize).end_node(self.from)
    }

    /// The node that it leads to.
    pub fn finish(self, roads: &[Road]) -> usize
        ensures { result ≡ finish roads.now self }
    {
        self.back().start(roads)
    }

    /// The same arc the other way.
    pub fn back(self) -> Step
        ensures { result ≡ flip self }
    {
        Step {
            from: self.from.other(),
            ..self
        }
    }

    /// How many more chests can go this way.
    // kept: roads and flow are handed in as slices, here and below, by a rule of the project
    pub fn room(self, roads: &[Road], flow: &[u32]) -> u32
        requires { Bounded roads.now flow.now }
        ensures { result ≡ room roads.now flow.now self }
    {
        let road = Road::at(roads, self.arc as usize);
        let chests = flow.get(self.arc as usize).copied().unwrap_or(0);
        match self.from {
            End::Tail => road.most - chests,
            End::Head => chests - road.least,
        }
    }

    /// Sends some chests more this way.
    pub fn push(self, roads: &[Road], flow: &mut [u32], chests: u32)
        requires bounded { Bounded roads.now flow.old }
        requires inside { self.arc < length roads.now }
        requires room { chests ≤ room roads.now flow.old self }
        ensures { flow.new ≡ pushed flow.old self chests }
    {
        let Road { least, most, .. } = roads[self.arc as usize];
        let carried = &mut flow[self.arc as usize];
        match self.from {
            End::Tail => *carried += chests,
            End::Head => *carried -= chests,
        }
        prove!((least..=most).contains(carried));
    }
}
