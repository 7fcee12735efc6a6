//! What a search over strips works on: the queue of the fronts that wait, and the table of those
//! that are settled.
//!
//! All coordinates are whole micrometres, and a cost is counted in micrometres of wire.
#![tactic(auto)]

mod queues;
mod tables;

pub use queues::Queue;
pub use tables::Table;
