//! An input with replies is read: a board text, a line `replies`, and the text of replies.
ghost use Rattle.std.specs.Prelude.{◌≡◌, ◌≤◌, ◌^◌, ◌<◌, [], All, length, Ok, OnOk, IfOk, IfErr};
ghost use Rattle.io_edge.specs.Streams.{IsToldAs};
ghost use Rattle.board_parts.specs.Commands.{IsCommandOf};
ghost use Rattle.board_reader.specs.Contract.{told_by};
ghost use Rattle.board_reader.specs.Reading.{reading};
ghost use Rattle.reply_reader.specs.Readings.{IsReadingOf};
ghost use Rattle.contour_core.specs.Checked.{EndsCheckedReading, EndsParts, EndsReplies, EndsUnsplit, IsCheckedAs};
ghost use Rattle.contour_core.specs.Inputs.{IfTold};

use crate::endings::Ending;
use crate::inputs::MAX_INPUT;
use board_model::Board;
use board_reader::{Input, Refusal, RefusalKind, count_lines, read_input, split_check};
use geo_rect::List;
use io_edge::{Source, read_all};
use reply_reader::{ReadReplies, read_replies};
use route_law::Reply;
use std::alloc::Global;

/// A board text and the replies behind it.
#[derive(Drop)]
pub struct Checked {
    pub input: Input,
    pub replies: List<Reply>,
}

/// How a check ends where a whole input is a board text: for the line `replies` that is missing after it.
fn missing_replies(_input: Input, bytes: &[u8]) -> Ending
    requires short { length bytes.now ≤ 268435456 }
    requires read { reading bytes.now ≡ Ok (told_by _input) }
    ensures { EndsUnsplit bytes.now result }
{
    Ending::Refused(Refusal {
        line: count_lines(bytes) + 1,
        kind: RefusalKind::NoEnd,
    })
}

/// How a check ends where no line `replies` is there: the text is refused as a board text, or for the line
/// that is missing.
fn without_replies(alloc: Global, bytes: &[u8]) -> Ending
    requires short { length bytes.now ≤ 268435456 }
    ensures { EndsUnsplit bytes.now result }
{
    match read_input(alloc, bytes) {
        Ok(input) => missing_replies(input, bytes),
        Err(error) => Ending::from(error),
    }
}

/// The replies that stand behind so many lines.
fn replies_behind(
    alloc: Global,
    board: &Board,
    bytes: &[u8],
    before: u64,
) -> Result<List<Reply>, Ending>
    requires before { before < 2 ^ 32 }
    requires short { length bytes.now ≤ 268435456 }
    ensures ok { IfOk result (λ replies. IsReadingOf board.now.parts bytes.now replies) }
    ensures err { IfErr result (EndsReplies board.now.parts bytes.now before) }
{
    match read_replies(alloc, board, bytes) {
        Ok(replies) => Ok(replies),
        Err(ReadReplies::Refused(number)) => Err(Ending::Refused(Refusal {
            line: before + number,
            kind: RefusalKind::BadReply,
        })),
        Err(ReadReplies::NoMemory) => Err(Ending::NoMemory),
    }
}

/// The board text and the replies behind it.
fn read_parts(alloc: Global, bytes: &[u8]) -> Result<Checked, Ending>
    requires short { length bytes.now ≤ 268435456 }
    ensures ok { IfOk result (λ c. IsCheckedAs (told_by c.input) c.replies bytes.now) }
    ensures commands { IfOk result (λ c. All (IsCommandOf c.input.board.parts) c.input.commands) }
    ensures err { IfErr result (EndsParts bytes.now) }
{
    let Some(split) = split_check(bytes) else {
        return Err(without_replies(alloc, bytes));
    };
    let input = read_input(alloc, &bytes[..split.text_end])?;
    let behind = &bytes[split.replies_start..];
    let replies = replies_behind(alloc, &input.board, behind, split.lines)?;
    Ok(Checked { input, replies })
}

/// Reads the source to its end, and its bytes as a board text and the replies behind it.
pub fn read_checked<S: Source>(alloc: Global, source: &mut S) -> Result<Checked, Ending>
    ensures ok { IfOk result (λ c. IfTold (S.left source.old) (IsCheckedAs (told_by c.input) c.replies)) }
    ensures end { OnOk result (IsToldAs (S.left source.new) []) }
    ensures commands { IfOk result (λ c. All (IsCommandOf c.input.board.parts) c.input.commands) }
    ensures err { IfErr result (EndsCheckedReading (S.left source.old) (S.faults source.old) (S.faults source.new)) }
    ensures setup { S.setup source.new ≡ S.setup source.old }
{
    let bytes = read_all(alloc, source, MAX_INPUT)?;
    read_parts(alloc, bytes.as_slice())
}
