// The layer that takes the least of every arc away beforehand.
#![tactic(auto)]

pub mod floor;
mod sums;
