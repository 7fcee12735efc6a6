//! A board, the connections that are made on it, and what each command does to them.
//!
//! All coordinates are whole micrometres.
#![tactic(auto)]

mod adopts;
mod answers;
mod attempts;
mod looks;
mod planes;
mod rips;
mod routes;
mod sessions;
mod turns;

pub use adopts::Adopted;
pub use looks::items_of;
pub use sessions::Session;
