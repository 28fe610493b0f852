// Every kind of worth, as theorems speak of it.
ghost use Rattle.worths.specs.Facts.{WorthsStand};
ghost use Rattle.worths.specs.Kinds.{Kind, Ordered, plain, ranked};
ghost use Rattle.worths.specs.Laws.{plain_ordered, ranked_ordered};

use crate::worth::{Plain, Ranked};

/// A kind of worth over whole numbers: an ordered commutative group. A theorem over `K: Weighed` holds of each kind.
pub trait Weighed {
    ghost kind: { Kind };

    ghost ordered: { Ordered kind };
}

impl Weighed for Plain {
    ghost kind = { plain };

    ghost ordered = { plain_ordered };
}

impl Weighed for Ranked {
    ghost kind = { ranked };

    ghost ordered = { ranked_ordered };
}

/// What worths rest on: both kinds are ordered groups, first parts of fitting ranked prices fit, and plain numbers are
/// ranked pairs with second part 0.
pub fn worths_stand()
    ensures { WorthsStand }
{}
