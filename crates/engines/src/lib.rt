// What every engine is given, and what it promises.
#![tactic(auto)]

pub mod engine;
pub mod work;
