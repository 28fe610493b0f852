// What every network can be asked.
ghost use Rattle.std.specs.Prelude.{◌≡◌};
ghost use Rattle.std.specs.List.{slice_get};
ghost use Rattle.network.specs.Net.{Net, Lawful, size_of};

use crate::road::Road;
use crate::size::Size;

/// A network, from wherever it has its roads. `meaning` is what it is, `laws` that it keeps the laws.
///
/// A network may fetch, cache or count when it is asked, so the calls take `&mut self`; asking never changes what it means.
// kept a clause of each call, here and wherever a network is asked: `same` speaks of before and after, and an invariant of one value cannot.
pub trait Network {
    ghost meaning: { Self → Net };

    /// The numbers of nodes and arcs, and the fixed costs.
    fn size(&mut self) -> Size
        ensures value { result ≡ size_of (meaning self.old) }
        ensures same { meaning self.new ≡ meaning self.old };

    /// The stock of a node, or none where there is no such node.
    fn stock(&mut self, node: usize) -> Option<i64>
        ensures value { result ≡ slice_get (meaning self.old).stocks node }
        ensures same { meaning self.new ≡ meaning self.old };

    /// The road of an arc, or none where there is no such arc.
    fn arc(&mut self, arc: usize) -> Option<Road>
        ensures value { result ≡ slice_get (meaning self.old).roads arc }
        ensures same { meaning self.new ≡ meaning self.old };

    ghost laws: { (s : Self) → Lawful (meaning s) };
}
