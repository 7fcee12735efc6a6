//! All planes of a state: one for the wires of each class on each layer, and one for the vias of
//! each class of each kind. It stands over any `Plane`.
//!
//! All coordinates are whole micrometres.
#![tactic(auto)]

mod adds;
mod builds;
mod families;
mod frames;
mod joins;
mod laws;
mod passing;
mod rests;
mod sets;
mod shuts;

pub use laws::planes_ignore_order;
pub use sets::PlaneSet;
