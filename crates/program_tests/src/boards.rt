//! The texts of the tests.

use board_model::Board;
use board_reader::read_input;
use std::alloc::{AllocError, Global};
use std::test::Fail;

/// A board with a wall between two pins, line by line.
pub const LINES: [&str; 10] = [
    "board 1 demo 40 20",
    "layer top",
    "class sig",
    "rule top sig 1 2",
    "block top 18 0 22 14",
    "net a sig",
    "pin a 4 9 6 11 top top",
    "pin a 34 9 36 11 top top",
    "end",
    "rules",
];

/// Adds a text in which a mark stands for the end of a line.
pub fn add(bytes: &mut Vec<u8>, text: &str, mark: u8, end: &[u8]) -> Result<(), AllocError> {
    for byte in text.bytes() {
        if byte == mark {
            bytes.extend_from_slice(end)?;
        } else {
            bytes.push(byte)?;
        }
    }
    Ok(())
}

/// The board with a wall, with a text for the lines `first` to `last`, counted from 1.
pub fn changed(alloc: Global, first: u64, last: u64, text: &str) -> Result<Vec<u8>, AllocError> {
    let mut bytes = Vec::new(alloc);
    for (index, line) in LINES.iter().enumerate() {
        let number = index as u64 + 1;
        if number == first {
            add(&mut bytes, text, b';', b"\n")?;
        }
        if number < first || last < number {
            bytes.extend_from_slice(line.as_bytes())?;
            bytes.push(b'\n')?;
        }
    }
    Ok(bytes)
}

/// The board of a text in which a semicolon ends a line.
pub fn board_of(alloc: Global, text: &str) -> Result<Board, Fail> {
    let mut bytes = Vec::new(alloc);
    add(&mut bytes, text, b';', b"\n")?;
    match read_input(alloc, &bytes) {
        Ok(input) => Ok(input.board),
        Err(_) => Err("the text is read".into()),
    }
}
