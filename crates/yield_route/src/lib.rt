//! Routing through other nets: their connections are removed, a net is routed, and each of the
//! others is given its old connections back where all of them are walks still.
//!
//! All coordinates are whole micrometres, and a cost is counted in micrometres of wire.
#![tactic(auto)]

mod asides;
mod printing;
mod runs;
mod steps;
mod told;
mod tries;

pub use printing::through_text;
pub use runs::through;
pub use told::{Back, Ripped, Through};
