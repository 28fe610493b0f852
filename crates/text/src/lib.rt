// The carriage text: reading a consignment into rows.
#![tactic(auto)]

mod draft;
mod filling;
mod reader;
pub mod sizes;

pub use reader::read;
pub use sizes::Sizes;
