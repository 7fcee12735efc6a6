//! Where a pour of a net may flow inside a zone of a layer, and the text that tells it.
//!
//! All coordinates are whole micrometres.
#![tactic(auto)]

mod cuts;
mod flood;
mod laws;
mod marks;
mod pours;
mod seeds;
mod texts;

pub use laws::{a_pour_has_the_reached_points, reached_points_keep_the_rules, there_is_one_pour};
pub use pours::pour;
pub use texts::fill_text;
