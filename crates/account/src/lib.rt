// The account of a consignment that is given as rows.
#![tactic(auto)]

pub mod account;
pub mod asked;
pub mod lines;
pub mod sums;
#[cfg(test)]
mod tests;
