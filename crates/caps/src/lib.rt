// The layer that lowers the mosts of some arcs.
#![tactic(auto)]

mod asks;
pub mod layer;
pub mod places;
pub mod table;
