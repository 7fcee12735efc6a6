//! The text of a board and of commands, which reads back as that board and those commands.
#![tactic(auto)]

mod clears;
mod commands;
mod items;
mod laws;
mod spelling;
mod vias;
mod wires;
mod words;

pub use laws::a_spelled_board_is_read;
pub use spelling::{Version, spell};
