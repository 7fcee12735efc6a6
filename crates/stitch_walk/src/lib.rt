//! Tiles that fill a rectangle and are linked by stitches, and the walks over them: to a point, along
//! a side, over an area. Corner stitching is after J. K. Ousterhout, 1984.
//!
//! All coordinates are whole micrometres.
#![tactic(auto)]

mod ids;
mod laws;
mod locating;
mod sides;
mod sweeps;
mod tilings;
mod walks;

pub use ids::Ids;
pub use laws::tiles_fill_the_domain;
pub use sides::{following, has_point, stitch};
pub use tilings::Tiling;
