// Layers that leave roads and stocks in their places.
#![tactic(auto)]

pub mod exchange;
