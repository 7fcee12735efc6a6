//! The planes after new shapes.
#![tactic(auto)]

mod merges;

pub use merges::merge;
