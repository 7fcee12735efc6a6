//! The summary of a demonstration: how many connections were made, of how many, what they cost
//! together, and how many violations are left. The sum of costs serves other reports too.
//!
//! A cost is counted in micrometres of wire.
#![tactic(auto)]

mod lines;
mod sums;

pub use lines::summary;
pub use sums::cost_in;
