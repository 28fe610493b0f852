// Flows of a network: what prices that fit them show, and what lists of corners they have.
#![tactic(auto)]

pub mod theorems;
