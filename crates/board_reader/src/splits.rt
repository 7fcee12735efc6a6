ghost use Rattle.std.specs.Prelude.{◌≡◌, ◌≤◌, length, IfSome};
ghost use Rattle.line_words.specs.Lines.{lines};
ghost use Rattle.board_reader.specs.Splits.{is_mark, split_of};

use line_words::{next_piece, next_word, without_return};

/// Where the text of a board ends and the text of replies begins.
#[derive(Clone, Copy)]
pub struct Split {
    /// How many bytes stand before the line `replies`.
    pub text_end: usize,
    /// How many bytes stand before what follows that line.
    pub replies_start: usize,
    /// The number of that line, counted from 1.
    pub lines: u64,
}

/// Whether the line's only word is `replies`.
fn is_mark(line: &[u8]) -> bool
    ensures { result ≡ is_mark line.now }
{
    let Some((word, after)) = next_word(line) else {
        return false;
    };
    let mark: &[u8] = b"replies";
    if word != mark {
        return false;
    }
    next_word(after).is_none()
}

/// Finds the first line whose only word is `replies` and whose other bytes are all blanks. `None`
/// where there is no such line. Takes no memory.
pub fn split_check(bytes: &[u8]) -> Option<Split>
    ensures split { result ≡ split_of bytes.now }
    ensures ordered { IfSome result (λ s. s.text_end ≤ s.replies_start) }
    ensures within { IfSome result (λ s. s.replies_start ≤ length bytes.now) }
    ensures few { IfSome result (λ s. s.lines ≤ length bytes.now) }
{
    let mut rest = bytes;
    let mut passed = 0;
    while !rest.is_empty() {
        let (piece, after) = next_piece(rest);
        if is_mark(without_return(piece)) {
            return Some(Split {
                text_end: bytes.len() - rest.len(),
                replies_start: bytes.len() - after.len(),
                lines: passed + 1,
            });
        }
        rest = after;
        passed += 1;
    }
    None
}

/// The number of lines of a text. Takes no memory.
pub fn count_lines(bytes: &[u8]) -> u64
    ensures { result ≡ length (lines bytes.now) }
{
    let mut rest = bytes;
    let mut passed = 0;
    while !rest.is_empty() {
        let (_, after) = next_piece(rest);
        rest = after;
        passed += 1;
    }
    passed
}
