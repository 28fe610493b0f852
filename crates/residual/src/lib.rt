// The residual graph of a flow: steps over arcs, along or back, their room, and pushing chests over them.
#![tactic(auto)]

pub mod step;
