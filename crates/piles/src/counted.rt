// A network that changes when it is asked, and still means the same.
ghost use Rattle.std.specs.Prelude.{◌≡◌, ◌+◌, min};

use network::interface::Network;
use network::road::Road;
use network::size::Size;

/// The network below, with a count of the questions that it was asked.
#[derive(Drop)]
pub struct Counted<N> {
    below: N,
    questions: u64,
}

impl<N> Counted<N> {
    /// The network, with no question asked.
    pub fn new(below: N) -> Counted<N>
        ensures { result ≡ record { below = below; questions = 0 } }
    {
        Counted {
            below,
            questions: 0,
        }
    }

    /// How many questions were asked.
    pub fn questions(&self) -> u64
        ensures { result ≡ self.now.questions }
    {
        self.questions
    }

    fn count(&mut self)
        ensures counted { self.new.questions ≡ min (self.old.questions + 1) u64.MAX }
        ensures same { self.new.below ≡ self.old.below }
    {
        self.questions = self.questions.saturating_add(1);
    }
}

impl<N: Network> Network for Counted<N> {
    ghost meaning = { λ s. N.Network.meaning s.below };

    ghost laws = { λ s. N.Network.laws s.below };

    fn size(&mut self) -> Size {
        self.count();
        self.below.size()
    }

    fn stock(&mut self, node: usize) -> Option<i64> {
        self.count();
        self.below.stock(node)
    }

    fn arc(&mut self, arc: usize) -> Option<Road> {
        self.count();
        self.below.arc(arc)
    }
}
