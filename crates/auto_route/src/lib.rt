//! Rounds of removing all connections and routing every net again, in several orders of the nets, of
//! which the best is kept; and the text of what came of them.
//!
//! A cost is counted in micrometres of wire.
#![tactic(auto)]

mod autos;
mod given_back;
mod laws;
mod orders;
mod plays;
mod ranks;
mod rips;
mod texts;
pub mod told;
mod tours;

pub use autos::auto;
pub use laws::each_round_routes_every_net_once;
pub use texts::auto_text;
