//! The violations of a board's rules: shapes that are too close, and shapes that leave the board.
#![tactic(auto)]

mod bounds;
mod checks;
mod hulls;
mod later;
mod meaning;
mod outlines;
mod pairs;
mod runs;

pub use checks::violations;
pub use meaning::violations_are_exact;
