//! The ground on which a net walks over the planes of a board, the fronts in which it starts, and all
//! moves from strip to strip.
//!
//! All coordinates are whole micrometres, and a cost is counted in micrometres of wire.
#![tactic(auto)]

mod departures;
mod edges;
mod jumps;
mod labels;
mod laws;
mod moves;
mod net_planes;
mod spans;
mod starts;

pub use labels::admits;
pub use laws::planes_are_a_ground;
pub use moves::moves_of;
pub use net_planes::{vias_of, wires_of};
pub use spans::joins;
pub use starts::starts_of;
