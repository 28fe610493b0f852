// Worths and prices: the kinds of worth, reduced worths, and the test that prices fit a flow.
#![tactic(auto)]

pub mod fit;
pub mod kind;
pub mod worth;
