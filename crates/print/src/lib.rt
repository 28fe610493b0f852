// Printed lines: the line of a refusal, and lines put into a caller's row.
#![tactic(auto)]

pub mod refused;
pub mod row;
#[cfg(test)]
mod tests;
