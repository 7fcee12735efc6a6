ghost use Rattle.std.specs.Prelude.{◌≡◌, IfOk, IfErr};
ghost use Rattle.reply_reader.specs.Readings.{IsReadingOf, TellsRefusal};
ghost use Rattle.reply_reader.specs.declared.readings.ReadReplies.TheVariants.{NoMemory};

use crate::parts::Readable;
use crate::places::Place;
use board_model::Board;
use geo_rect::{List, NoMemory};
use route_law::Reply;
use std::alloc::Global;

/// Why no replies were read.
#[derive(Clone, Copy, Debug, PartialEq, Eq)]
pub enum ReadReplies {
    /// The line of this number, from 1, is the first that cannot stand in a text of replies.
    Refused(u64),
    NoMemory,
}

impl From<NoMemory> for ReadReplies {
    ghost from_gives = { λ _ e. e ≡ NoMemory };

    fn from(_error: NoMemory) -> ReadReplies {
        ReadReplies::NoMemory
    }
}

/// The replies that a text spells, which is not quiet.
pub fn read_replies(alloc: Global, board: &Board, bytes: &[u8]) -> Result<List<Reply>, ReadReplies>
    ensures ok { IfOk result (λ rs. IsReadingOf board.now.parts bytes.now rs) }
    ensures refused { IfErr result (λ e. TellsRefusal board.now.parts bytes.now e) }
{
    let mut replies = List::new(alloc);
    let mut place = Place::first();
    while place.at < bytes.len() {
        let reply = Reply::read(alloc, board, bytes, &mut place)?;
        replies.push(reply)?;
    }
    Ok(replies)
}
