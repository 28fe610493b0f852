// Why a call is sent away.
ghost use Rattle.std.specs.Prelude.{◌≡◌, Some};
ghost use Rattle.network.specs.Refusals.{number_of, place_of, refusal_form};

use std::error::Error;
use std::fmt;

/// Every refusal of the planner. `number` and `place` are what a caller is told.
#[derive(Clone, Copy, Debug, PartialEq, Eq)]
pub enum Refusal {
    /// A cap on an arc that is not there.
    NoSuchArc,
    /// A cap below the arc's least or above the pile's most.
    CapRange,
    /// A cap on one arc more than the table of caps holds.
    CapsFull,
    /// Weights that are both zero, or one that is too large.
    Weights,
    /// A flow row shorter than the arcs.
    FlowRow,
    /// A price row shorter than the nodes.
    PriceRow,
    /// A work row that is too short.
    WorkRow,
    /// No flow exists.
    NoFlow,
    /// A text that is too long.
    TextSize,
    /// The byte or the end at this place fits no form.
    Form(usize),
    /// The number that begins at this place is outside its range, or names no node.
    Number(usize),
    /// Tail equals head or least is above most, in the line or record at this place.
    Impassable(usize),
    /// A node's stock is named a second time by the line at this place.
    NamedTwice(usize),
    /// The road row or the stock row is too short for the first line.
    TextRows,
    /// A printed line does not fit its row.
    LineRow,
}

impl Refusal {
    /// The number of the refusal, from 1 to 15.
    // kept a method, and no `From`: a refusal turns into two numbers, this one and its place, and the name says which.
    pub fn number(&self) -> u8
        ensures { result ≡ number_of self.now }
    {
        match self {
            Refusal::NoSuchArc => 1,
            Refusal::CapRange => 2,
            Refusal::CapsFull => 3,
            Refusal::Weights => 4,
            Refusal::FlowRow => 5,
            Refusal::PriceRow => 6,
            Refusal::WorkRow => 7,
            Refusal::NoFlow => 8,
            Refusal::TextSize => 9,
            Refusal::Form(_) => 10,
            Refusal::Number(_) => 11,
            Refusal::Impassable(_) => 12,
            Refusal::NamedTwice(_) => 13,
            Refusal::TextRows => 14,
            Refusal::LineRow => 15,
        }
    }

    /// The place that the refusal points at, for those that have one.
    pub fn place(&self) -> Option<usize>
        ensures { result ≡ place_of self.now }
    {
        match self {
            Refusal::Form(p)
            | Refusal::Number(p)
            | Refusal::Impassable(p)
            | Refusal::NamedTwice(p) => Some(*p),
            _ => None,
        }
    }
}

/// `(refused 8)`, or with a place `(refused 10 57)`.
impl fmt::Display for Refusal {
    ghost output = { λ e. Some (refusal_form e) };

    fn fmt<W: fmt::Write>(&self, f: &mut fmt::Formatter<W>) -> fmt::Result {
        let number = self.number();
        match self.place() {
            Some(place) => write!(f, "(refused {number} {place})"),
            None => write!(f, "(refused {number})"),
        }
    }
}

impl Error for Refusal {}
