//! A plane that keeps its strips as linked tiles.
//!
//! All coordinates are whole micrometres.
#![tactic(auto)]

mod orders;
mod planes;
mod queries;

pub use planes::StitchedPlane;
pub use tile_cuts::{cut_col, cut_row, join_side, join_up};

#[cfg(test)]
mod tests;
