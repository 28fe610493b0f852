// A plain row of places for caps, which lends one place at a time.
ghost use Rattle.std.specs.Prelude.{◌≡◌, ◌<◌, ◌==◌, replicate, length, IfOk, None, slice_index_or, slice_set};
ghost use Rattle.std.specs.Borrow.{Lends, sem};
ghost use Rattle.std.specs.contracts.option.Option.{the_row as option_row};
ghost use Rattle.caps.specs.Caps.{place_count};
ghost use Rattle.caps.specs.contracts.places.Places.{the_row as places_row};
ghost use Rattle.caps.specs.contracts.places.CapEntry.{the_row as entry_row};

use std::alloc::{AllocError, Global};
use std::marker::Model;

/// An arc's number and the most that it may carry.
#[derive(Clone, Copy, Debug, PartialEq, Eq)]
pub struct CapEntry {
    pub arc: u16,
    pub amount: u16,
}

impl CapEntry {
    /// Whether the entry is for this arc.
    pub(crate) fn names(&self, arc: usize) -> bool
        ensures { result ≡ (self.now.arc == arc) }
    {
        usize::from(self.arc) == arc
    }
}

/// Places of a table.
pub const PLACES: usize = 64;

/// A row of places, each with an entry or free, all made at once, so that only making it can want memory.
// kept: a row that is searched from its lowest place, and no map, since a map would want memory for a new cap
#[derive(Drop)]
pub struct Places {
    entries: Vec<Option<CapEntry>>,
}

impl Model for Places {
    ghost use Rattle.std.specs.Prelude.{List, Option};
    ghost use Rattle.caps.specs.declared.places.CapEntry.{CapEntry};

    ghost Value = { List (Option CapEntry) };

    ghost view = { λ p. p.entries.items };
}

impl Places {
    /// A row whose places are all free.
    pub(crate) fn new(heap: Global) -> Result<Places, AllocError>
        ensures { IfOk result (λ p. p ≡ replicate place_count None) }
    {
        let entries = vec![in heap; None; PLACES]?;
        Ok(Places { entries })
    }

    /// All places, the lowest first.
    pub(crate) fn as_slice(&self) -> &[Option<CapEntry>]
        ensures { result.now ≡ self.now }
    {
        self.entries.as_slice()
    }

    /// Lends one place for change. Every other place stays.
    // kept a demand of each call on a place: a type for places that are there would be taken apart at once where it counts in the row
    pub(crate) fn place_mut(&mut self, place: usize) -> &mut Option<CapEntry>
        requires { place < length self.old }
        ensures* writes_back { sem 𝓛 (Lends places_row (option_row entry_row) self.entry result (slice_set self.old place)) }
        ensures facts { result.now ≡ slice_index_or self.old place result.now }
    {
        &mut self.entries[place]
    }
}
