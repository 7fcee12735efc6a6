//! Painting over a linked tiling, which leaves its tiles as wide as can be and then as tall.
//!
//! All coordinates are whole micrometres.
#![tactic(auto)]

mod bands;
mod corners;
mod ledges;
mod outlines;
mod paints;
mod spots;
mod trims;
mod widths;

pub use paints::paint;
