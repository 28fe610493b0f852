// Lines of a text, and the words and numbers that stand in them.
#![tactic(auto)]

pub mod line;
pub mod number;
pub mod word;
