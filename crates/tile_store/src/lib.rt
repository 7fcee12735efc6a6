//! Tiles of a plane under their numbers, and a count of how many were read.
//!
//! All coordinates are whole micrometres.
#![tactic(auto)]

mod steps;
mod stores;
mod tiles;

pub use steps::Steps;
pub use stores::TileStore;
pub use tiles::{Tile, TileId};
