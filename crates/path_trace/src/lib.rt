//! The connection that a right certificate promises: the walk that costs what an entry says, from a
//! source box to a node of the entry's strip.
//!
//! All coordinates are whole micrometres, and a cost is counted in micrometres of wire.
#![tactic(auto)]

mod costs;
mod lines;
mod paths;
mod points;
mod traces;

pub use traces::trace;
