// Worths as the code adds and compares them: plain numbers and ranked pairs.
ghost use Rattle.std.specs.Prelude.{◌≡◌, not, pos};
ghost use Rattle.worths.specs.Kinds.{Pair, plus_pair, minus_pair, at_most_pair};
ghost use Rattle.worths.specs.Values.{NearPair, wrapped_pair, compared, max_exact, max_worth, max_price};

use std::cmp::Ordering;

/// Sums and negations are exact where each part of the result is at most so far from zero.
pub const MAX_EXACT: i64 = 9_000_000_000_000_000_000;
/// Distance of each part of an arc's worth from zero.
pub const MAX_WORTH: i64 = 4_000_000_000_000;
/// Distance of each part of a price from zero.
pub const MAX_PRICE: i64 = 1_000_000_000_000_000;

/// The limits of the code, which are those of the contracts.
pub fn worth_limits() -> (i64, i64, i64)
    ensures { result ≡ (pos max_exact, pos max_worth, pos max_price) }
{
    (MAX_EXACT, MAX_WORTH, MAX_PRICE)
}

/// What an arc's chest is worth under one objective, or a node's price. `value` is what it means.
///
/// Sums wrap rather than fail, so that no caller owes a bound: a sum of sums is right wherever its true value is in range.
pub trait Worth: Copy {
    ghost value: { Self → Pair };

    /// Nothing.
    fn zero() -> Self
        ensures { value result ≡ (pos 0, pos 0) };

    /// The sum, exact within `MAX_EXACT`; beyond it wraps.
    fn add(self, other: Self) -> Self
        ensures exact { NearPair max_exact (plus_pair (value self) (value other)) → value result ≡ plus_pair (value self) (value other) }
        ensures wraps { value result ≡ wrapped_pair (plus_pair (value self) (value other)) };

    /// The same as far on the other side of zero, exact within `MAX_EXACT`; beyond it wraps.
    fn negate(self) -> Self
        ensures exact { NearPair max_exact (minus_pair (value self)) → value result ≡ minus_pair (value self) }
        ensures wraps { value result ≡ wrapped_pair (minus_pair (value self)) };

    /// By the first part, ties by the second.
    fn compare(self, other: Self) -> Ordering
        ensures { result ≡ compared (value self) (value other) };

    /// Whether it is strictly above zero.
    // kept beside `is_below`: both names are public, and one method with a side as its parameter would say less
    fn is_above(self) -> bool
        ensures { result ≡ not (at_most_pair (value self) (pos 0, pos 0)) }
    {
        self.compare(Self::zero()).is_gt()
    }

    /// Whether it is strictly below zero.
    fn is_below(self) -> bool
        ensures { result ≡ not (at_most_pair (pos 0, pos 0) (value self)) }
    {
        self.compare(Self::zero()).is_lt()
    }
}

/// A plain number, which means a pair with second part 0.
#[derive(Clone, Copy, Debug, PartialEq, Eq, PartialOrd, Ord)]
pub struct Plain(pub i64);

impl Worth for Plain {
    ghost value = { λ x. (x.0, pos 0) };

    fn zero() -> Plain {
        Plain(0)
    }

    fn add(self, other: Plain) -> Plain {
        Plain(self.0.wrapping_add(other.0))
    }

    fn negate(self) -> Plain {
        Plain(self.0.wrapping_neg())
    }

    // kept in both kinds: an order that every kind has to have would ask more of it than this one call
    fn compare(self, other: Plain) -> Ordering {
        self.cmp(&other)
    }
}

/// A pair of numbers, of which the first counts and the second breaks ties.
#[derive(Clone, Copy, Debug, PartialEq, Eq, PartialOrd, Ord)]
pub struct Ranked {
    pub first: i64,
    pub second: i64,
}

impl Worth for Ranked {
    ghost value = { λ x. (x.first, x.second) };

    fn zero() -> Ranked {
        Ranked {
            first: 0,
            second: 0,
        }
    }

    fn add(self, other: Ranked) -> Ranked {
        Ranked {
            first: self.first.wrapping_add(other.first),
            second: self.second.wrapping_add(other.second),
        }
    }

    fn negate(self) -> Ranked {
        Ranked {
            first: self.first.wrapping_neg(),
            second: self.second.wrapping_neg(),
        }
    }

    fn compare(self, other: Ranked) -> Ordering {
        self.cmp(&other)
    }
}
