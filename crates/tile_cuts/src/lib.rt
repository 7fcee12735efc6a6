//! Tiles of a linked tiling are cut in two and joined again, and the stitches around them are mended.
//!
//! All coordinates are whole micrometres.
#![tactic(auto)]

mod cuts;
mod joins;
mod mending;
mod parts;
mod reads;
mod relabels;
mod stitches;

pub use cuts::{cut_col, cut_row};
pub use joins::{join_side, join_up};
pub use relabels::relabel;
