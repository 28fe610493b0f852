// Networks over rows of the caller's.
#![tactic(auto)]

pub mod held;
pub mod table;
pub mod test;
