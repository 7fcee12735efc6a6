//! What is made on a board, and the words that all rules are said in: shapes, labels, violations.
//! The board itself is that of `board_parts`; whether lists are a board is tested here.
#![tactic(auto)]

mod boxes;
mod conn_shapes;
mod labels;
mod made;
mod names;
mod outlines;
mod pairs;
mod rules;
mod segments;
mod shapes;
mod states;
mod validity;

pub use board_parts::{
    Block, Board, BoardParts, Command, Keepout, MAX_BLOCKS, MAX_CHARGE, MAX_CLASSES, MAX_COMMANDS,
    MAX_KINDS, MAX_LAYERS, MAX_MEASURE, MAX_NAME, MAX_NETS, MAX_PINS, MAX_SIDE, Pin, Rule, ViaKind,
};
pub use boxes::{attach_boxes, target_boxes};
pub use conn_shapes::shapes_of;
pub use labels::{
    each_square_fits, hits_are_squares_too_close, keepouts_shut_squares, labels_forget_shapes,
    labels_ignore_order, labels_say_what_hits, labels_take_shapes, passable_is_left_to_the_net,
};
pub use made::{Conn, Leg, Made, copy_conns};
pub use outlines::has_area;
pub use shapes::{Owned, Shape, Violation};
pub use states::all_shapes;
pub use validity::is_board;
