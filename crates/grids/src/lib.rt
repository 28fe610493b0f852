// Grids: networks that are computed and not stored.
#![tactic(auto)]

mod arcs;
pub mod asked;
pub mod grid;
mod made;
#[cfg(test)]
mod tests;
mod way;
