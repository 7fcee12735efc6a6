//! The lines of a text, the words of a line, and the numbers that words say. It knows no form of any
//! text.
#![tactic(auto)]

mod lines;
mod numbers;
mod words;

pub use lines::{counts, has_other_byte, next_line, next_piece, without_return};
pub use numbers::{is_number, number};
pub use words::{Words, next_word};
