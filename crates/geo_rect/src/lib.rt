//! The ground of the router: whole points, rectangles, the numbers by which layers, classes, via
//! kinds and nets are known, and the two containers that contracts see as plain lists.
//!
//! All coordinates are whole micrometres.
#![tactic(auto)]

mod axes;
mod decided;
mod geometry;
mod geometry_laws;
mod ids;
mod lists;
mod memory;
mod shapes;

pub use decided::tests_are_exact;
pub use geometry::{clamp, dist, edge, grown, meet, reach, same_rect, too_close};
pub use geometry_laws::{
    a_far_detour_is_long, a_step_changes_the_distance_by_one, clamping_gives_the_nearest,
    clamping_loses_nothing, distance_is_a_distance, distance_obeys_the_triangle,
    grown_serves_squares, parts_lie_within, reach_covers, there_is_one_number,
    there_is_one_rectangle,
};
pub use ids::{ClassId, KindId, Label, LayerId, NetId, Node, Spot};
pub use lists::{List, Text};
pub use memory::NoMemory;
pub use shapes::{Interval, Point, Rect};
