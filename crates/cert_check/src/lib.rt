//! Whether a certificate is right, and whether a connection is a walk of its bound.
//!
//! All coordinates are whole micrometres, and a cost is counted in micrometres of wire.
#![tactic(auto)]

mod bounds;
mod covers;
mod fronts;
mod laws;
mod moves;
mod origins;
mod passages;
mod paths;
mod places;
mod rects;
mod searches;
mod verdicts;

pub use laws::a_verdict_is_yes_exactly_where_all_is_right;
pub use verdicts::{Verdict, Why, check};
