//! What is joined on a board: the groups of copper that touches, the nets whose pins are in two
//! groups or more, and the nets that share a group; the text of that; and what holds of it in every
//! state of a run.
#![tactic(auto)]

mod copper;
mod flood;
mod group_lists;
mod held_groups;
mod laws;
mod open_nets;
mod printing;
mod short_nets;
mod touching;
mod traced;

pub use copper::{Piece, pieces};
pub use flood::groups;
pub use laws::{
    a_net_that_lacks_nothing_is_not_open, a_state_has_one_report, nets_are_shorted_by_pins_alone,
};
pub use printing::trace_text;
pub use traced::{Group, OpenNet, Short, Traced, report};
