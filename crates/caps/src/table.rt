// A table of caps, in which no arc stands twice.
ghost use Rattle.std.specs.Prelude.{◌≡◌, ℕ, ◌<◌, true, length, replicate, IfOk, MatchResult, Some, slice_index_or, slice_set, position, is_none};
ghost use Rattle.caps.specs.Caps.{place_count, names, cap_of, IsTable, Added, NotAdded, add_error_text};

use crate::places::{CapEntry, Places};
use std::alloc::{AllocError, Global};
use std::error::Error;
use std::fmt;
use std::marker::Model;

// The greatest number of 16 bits is no arc of any network.
const NO_ARC: u16 = u16::MAX;

/// Why an entry was not added.
#[derive(Clone, Copy, Debug, PartialEq, Eq)]
pub enum AddError {
    /// No network has an arc of this number.
    NoArc,
    /// The arc has an entry already.
    Named,
    /// No place is free.
    Full,
}

impl fmt::Display for AddError {
    ghost output = { λ e. Some (add_error_text e) };

    fn fmt<W: fmt::Write>(&self, f: &mut fmt::Formatter<W>) -> fmt::Result {
        match self {
            AddError::NoArc => write!(f, "no network has an arc of this number"),
            AddError::Named => write!(f, "the arc has an entry already"),
            AddError::Full => write!(f, "no place is free"),
        }
    }
}

impl Error for AddError {}

/// The caps of a layer, at most one for each arc.
#[derive(Drop)]
pub struct CapTable {
    places: Places,
}

impl Model for CapTable {
    ghost use Rattle.std.specs.Prelude.{List, Option};
    ghost use Rattle.caps.specs.declared.places.CapEntry.{CapEntry};

    ghost Value = { List (Option CapEntry) };

    ghost use Rattle.caps.specs.Caps.{IsTable};

    ghost view = { λ t. t.places };

    ghost invariant = { λ t. IsTable t.places };
}

impl CapTable {
    /// A table without caps. Only this call can want memory.
    pub fn new(heap: Global) -> Result<CapTable, AllocError>
        ensures { IfOk result (λ t. t ≡ replicate place_count None) }
    {
        let places = Places::new(heap)?;
        Ok(CapTable { places })
    }

    /// Adds an entry for an arc that has none, in the lowest free place. It may cap nothing, but its number has to be one that an arc can have.
    pub fn add(&mut self, entry: CapEntry) -> Result<(), AddError>
        ensures value { MatchResult result (λ _. Added self.old self.new entry) (λ e. (self.new ≡ self.old) × NotAdded self.old entry.arc e) }
        ensures kept { IsTable self.old × IsTable self.new }
    {
        // What every table keeps is known from here on.
        let _ = &self.places;
        if entry.arc == NO_ARC {
            return Err(AddError::NoArc);
        }
        if self.find(usize::from(entry.arc)).is_some() {
            return Err(AddError::Named);
        }
        let place = self.free_place().ok_or(AddError::Full)?;
        self.put(place, entry);
        Ok(())
    }

    /// All places, the lowest first. What every table keeps is known of them.
    pub fn places(&self) -> &[Option<CapEntry>]
        ensures value { result.now ≡ self.now }
        ensures kept { IsTable self.now }
    {
        self.places.as_slice()
    }

    /// The lowest place whose entry names the arc.
    pub(crate) fn find(&self, arc: usize) -> Option<usize>
        ensures value { result ≡ position (names arc) self.now }
        ensures kept { IsTable self.now }
    {
        self.places
            .as_slice()
            .iter()
            .position(|place| place.is_some_and(|entry| entry.names(arc)))
    }

    /// The lowest free place.
    fn free_place(&self) -> Option<usize>
        ensures { result ≡ position is_none self.now }
    {
        self.places().iter().position(|place| place.is_none())
    }

    /// The cap on the arc, if the table has one.
    pub(crate) fn amount(&self, arc: usize) -> Option<u16>
        ensures { result ≡ cap_of self.now arc }
    {
        let place = self.find(arc)?;
        self.places()[place].map(|entry| entry.amount)
    }

    /// Frees one place.
    // kept a demand on the place, here and at `put`, for the reason at `Places::place_mut`
    pub(crate) fn clear(&mut self, place: usize)
        requires { place < length self.old }
        ensures value { self.new ≡ slice_set self.old place None }
        ensures kept { IsTable self.new }
    {
        *self.places.place_mut(place) = None;
    }

    /// Puts a cap into a place, over what stands there, where no other place names its arc.
    pub(crate) fn put(&mut self, place: usize, entry: CapEntry)
        requires fits { place < length self.old }
        requires alone { (k : ℕ) → names entry.arc (slice_index_or self.old k None) ≡ true → k ≡ place }
        ensures value { self.new ≡ slice_set self.old place (Some entry) }
        ensures kept { IsTable self.new }
    {
        *self.places.place_mut(place) = Some(entry);
    }
}
