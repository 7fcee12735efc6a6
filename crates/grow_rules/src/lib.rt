//! The rectangles that paint the labels of planes: a shape or a keep-out grown by what a wire or a via
//! keeps from it, and the frame of a board. Nothing here takes memory. All lengths are whole micrometres.
#![tactic(auto)]

mod ends;
mod frames;
mod grows;

pub use frames::frame;
pub use grows::{via_grow, via_keep, wire_grow, wire_keep};
