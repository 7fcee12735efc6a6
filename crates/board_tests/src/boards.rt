//! The boards of the tests, each made of its text.

use board_model::Board;
use board_reader::read_input;
use std::alloc::{AllocError, Global};
use std::test::Fail;

/// The bytes of a text in which a semicolon ends a line.
pub fn lines_of(alloc: Global, text: &str) -> Result<Vec<u8>, AllocError> {
    let mut bytes = Vec::new(alloc);
    for byte in text.bytes() {
        let put = if byte == b';' { b'\n' } else { byte };
        bytes.push(put)?;
    }
    Ok(bytes)
}

/// The board of a text in which a semicolon ends a line.
pub fn board_of(alloc: Global, text: &str) -> Result<Board, Fail> {
    let bytes = lines_of(alloc, text)?;
    match read_input(alloc, &bytes) {
        Ok(input) => Ok(input.board),
        Err(_) => Err("the text is read".into()),
    }
}

/// Looks at the board of a text in which a semicolon ends a line. Boards are let go here alone.
pub fn on_board<F: Fn(&Board) -> Result<(), Fail>>(
    alloc: Global,
    text: &str,
    look: &F,
) -> Result<(), Fail>
    requires { F.IsAlwaysCallable look.now }
{
    let board = board_of(alloc, text)?;
    look(&board)
}
