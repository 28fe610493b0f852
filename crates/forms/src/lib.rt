// The three forms that a line can have, read item by item.
#![tactic(auto)]

pub mod cursor;
pub mod form;
pub mod rest;
