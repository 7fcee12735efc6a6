//! Walks of a net, the certificates by which the cheapest of them are known, and the law that a
//! right certificate bounds every walk; and what each command does to a state and replies.
//!
//! All coordinates are whole micrometres, and a cost is counted in micrometres of wire.
#![tactic(auto)]

mod boards;
mod certs;
mod laws;
mod moves;
mod replies;
mod runs;
mod walks;

pub use boards::a_ground_is_passable_where_its_board_is;
pub use certs::{Cert, Entry, Origin};
pub use laws::{
    a_move_is_no_shortcut, a_right_certificate_bounds_every_walk,
    the_bound_of_a_right_certificate_is_reached,
};
pub use moves::{
    edge_moves_go_to_each_strip_beside, moves_are_determined_by_where_they_go,
    via_moves_go_where_strips_meet,
};
pub use replies::{Fail, Item, Made1, Reply, Routed};
pub use runs::{nothing_made_is_a_state, runs_go_on};
pub use walks::{
    a_connection_costs_its_legs, a_wire_within_a_strip_is_a_walk, walks_join_end_to_end,
};
