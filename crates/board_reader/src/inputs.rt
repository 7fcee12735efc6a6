use board_parts::{Board, Command};
use geo_rect::List;

/// What a board text says.
#[derive(Drop)]
pub struct Input {
    pub board: Board,
    /// The commands, in the order of the text.
    pub commands: List<Command>,
}
