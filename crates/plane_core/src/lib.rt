//! Planes of maximal horizontal strips: what they are, and what every implementation of one keeps.
//!
//! All coordinates are whole micrometres.
#![tactic(auto)]

mod laws;
mod overlaps;
mod planes;
mod sides;
mod strips;

pub use laws::{
    all_strips_meet_the_domain, each_strip_is_listed, local_form_is_enough, one_list_of_strips,
    points_turn_with_rectangles, strips_give_labels, strips_have_local_form,
};
pub use overlaps::{have_common, meets};
pub use planes::Plane;
pub use sides::Side;
pub use strips::{Strip, Strips};
