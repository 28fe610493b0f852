// What every other crate speaks of: limits, roads, refusals, and the interface of a network.
#![tactic(auto)]

pub mod interface;
pub mod limits;
pub mod refusal;
pub mod road;
pub mod size;
