//! The text of replies: what each reply is written as, line by line.
//!
//! All coordinates are whole micrometres, and a cost is counted in micrometres of wire.
#![tactic(auto)]

mod certs;
mod conns;
mod printing;
mod routes;
mod strips;
mod violations;
mod words;

pub use printing::{print, push_rip_line, push_show};
pub use routes::push_routed;
pub use words::{push_area, push_cost, push_count, push_name};
