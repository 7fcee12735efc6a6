//! The program as a library: one call from the words and the standard streams to the status that the
//! process ends with. The crate above makes the real words and streams, calls it, and ends.
#![tactic(auto)]

mod answers;
mod begins;
mod calls;
mod checks;
mod demos;
mod endings;
mod in_memory;
mod inputs;
mod lines;
mod parts;
mod reports;
mod sequels;
mod upgrades;

pub use calls::contour;
pub use endings::Status;
pub use in_memory::contour_in_memory;
