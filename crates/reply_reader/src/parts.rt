ghost use Rattle.std.specs.Prelude.{◌≡◌, ◌<◌, ℕ, List as Items, IfSome, IfNone};
ghost use Rattle.board_parts.specs.declared.parts.BoardParts.{BoardParts};
ghost use Rattle.reply_reader.specs.Forms.{HasGood, IsLineForm};
ghost use Rattle.reply_reader.specs.Parts.{Part, IsOne, counted, Tells};

use crate::lines::next_line;
use crate::places::Place;
use crate::readings::ReadReplies;
use crate::words::Words;
use board_model::Board;
use geo_rect::List;
use std::alloc::Global;

/// What a line of a text says.
pub trait Line: Sized + Drop {
    /// What the lines may say, and how they are spelled.
    ghost part: { BoardParts → Part Self };

    /// The words of a line.
    ghost spelling: { BoardParts → Self → Items (Items ℕ) };

    /// What the line of these words says, if it is one.
    fn of_words(board: &Board, words: &Words) -> Option<Self>
        ensures some { IfSome result (λ x. (part board.now.parts).IsGood x × (spelling board.now.parts x ≡ words.now)) }
        ensures none { IfNone result ((x : Self) → (part board.now.parts).IsGood x → spelling board.now.parts x ≡ words.now → ⊥) };
}

/// A part of a text.
pub trait Readable: Sized + Drop {
    /// What the part may say, and how it is spelled.
    ghost piece: { BoardParts → Part Self };

    /// What stands at the place, which is then after it.
    fn read(
        alloc: Global,
        board: &Board,
        bytes: &[u8],
        place: &mut Place,
    ) -> Result<Self, ReadReplies>
        requires { HasGood (piece board.now.parts) }
        ensures { Tells (piece board.now.parts) bytes.now place.old place.new result };
}

/// What the line at the place says; the place is then after it.
pub fn read_line<L: Line>(
    alloc: Global,
    board: &Board,
    bytes: &[u8],
    place: &mut Place,
) -> Result<L, ReadReplies>
    requires { IsLineForm (L.part board.now.parts) (L.spelling board.now.parts) }
    ensures { Tells (L.part board.now.parts) bytes.now place.old place.new result }
{
    let number = place.line;
    let Some(line) = next_line(bytes, place) else {
        return Err(ReadReplies::Refused(number));
    };
    let words = Words::of(alloc, line)?;
    match L::of_words(board, &words) {
        Some(said) => Ok(said),
        None => Err(ReadReplies::Refused(number)),
    }
}

/// So many parts, one after the other; the place is then after them.
pub fn read_counted<T: Readable>(
    alloc: Global,
    board: &Board,
    bytes: &[u8],
    place: &mut Place,
    count: u64,
) -> Result<List<T>, ReadReplies>
    requires one { IsOne (T.piece board.now.parts) }
    requires some { 0 < count → HasGood (T.piece board.now.parts) }
    ensures { Tells (counted count (T.piece board.now.parts)) bytes.now place.old place.new result }
{
    let mut parts = List::new(alloc);
    for _ in 0..count {
        let part = T::read(alloc, board, bytes, place)?;
        parts.push(part)?;
    }
    Ok(parts)
}
