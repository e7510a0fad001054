//! The monitoring counts of a node: what went wrong on its line.
#![tactic(auto)]

pub mod counts;
