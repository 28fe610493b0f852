// The reader of texts behind a C interface, for the comparison in compare/.
#![tactic(auto)]

ghost use Rattle.std.specs.Prelude.{◌≡◌};
ghost use Rattle.text.specs.Reader.{Answered};
ghost use Rattle.bridge.specs.Outcomes.{outcome_of};

use network::refusal::Refusal;
use network::road::Road;
use text::{Sizes, read};

/// The sizes of a text that is read, with `refusal` 0, or the number of a refusal and its place, `usize::MAX` where it has none.
// kept: a number for the kind of answer and one for no place, since the C interface is so.
#[repr(C)]
#[derive(Clone, Copy)]
pub struct Outcome {
    pub refusal: usize,
    pub place: usize,
    pub nodes: usize,
    pub arcs: usize,
}

impl From<Result<Sizes, Refusal>> for Outcome {
    ghost from_gives = { λ r o. o ≡ outcome_of r };

    fn from(read: Result<Sizes, Refusal>) -> Outcome {
        match read {
            Ok(Sizes { nodes, arcs }) => Outcome {
                refusal: 0,
                place: usize::MAX,
                nodes,
                arcs,
            },
            Err(refusal) => Outcome {
                refusal: usize::from(refusal.number()),
                place: refusal.place().unwrap_or(usize::MAX),
                nodes: 0,
                arcs: 0,
            },
        }
    }
}

/// `text::read`, on rows in the layout of C.
#[unsafe(no_mangle)]
pub extern "C" fn corners_read(text: &[u8], roads: &mut [Road], stocks: &mut [i32]) -> Outcome
    ensures { (r : _) × Answered text.now roads.old stocks.old r roads.new stocks.new × (result ≡ outcome_of r) }
{
    Outcome::from(read(text, roads, stocks))
}
