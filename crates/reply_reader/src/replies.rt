ghost use Rattle.std.specs.Prelude.{◌≡◌};
ghost use Rattle.reply_reader.specs.Blocks.{reply_block, reply_rest};
ghost use Rattle.reply_reader.specs.Forms.{HasGood};
ghost use Rattle.reply_reader.specs.Parts.{Part, Tells, counted};
ghost use Rattle.reply_reader.specs.Said.{IsHead};

use crate::blocks::read_routed;
use crate::heads::Head;
use crate::parts::{Readable, read_counted, read_line};
use crate::places::Place;
use crate::readings::ReadReplies;
use board_model::{Board, Violation};
use plane_core::Strip;
use route_law::{Item, Reply, Routed};
use std::alloc::Global;

/// A reply, behind its first line.
fn read_rest(
    alloc: Global,
    board: &Board,
    bytes: &[u8],
    place: &mut Place,
    head: Head,
) -> Result<Reply, ReadReplies>
    requires { IsHead board.now.parts head }
    ensures { Tells (reply_rest board.now.parts head) bytes.now place.old place.new result }
{
    match head {
        Head::Route(route) => {
            let routed = read_routed(alloc, board, bytes, place, route)?;
            Ok(Reply::Route(routed))
        }
        Head::All(count) => {
            let nets = read_counted::<Routed>(alloc, board, bytes, place, count)?;
            Ok(Reply::All(nets))
        }
        Head::Rip(net, removed) => Ok(Reply::Rip(net, removed)),
        Head::Show(net, needed, count) => {
            let items = read_counted::<Item>(alloc, board, bytes, place, count)?;
            Ok(Reply::Show(net, needed, items))
        }
        Head::Rules(count) => {
            let found = read_counted::<Violation>(alloc, board, bytes, place, count)?;
            Ok(Reply::Rules(found))
        }
        Head::Strips(layer, class, count) => {
            let strips = read_counted::<Strip>(alloc, board, bytes, place, count)?;
            Ok(Reply::Strips(layer, class, strips))
        }
    }
}

impl Readable for Reply {
    ghost piece = { reply_block };

    fn read(
        alloc: Global,
        board: &Board,
        bytes: &[u8],
        place: &mut Place,
    ) -> Result<Reply, ReadReplies> {
        let head = read_line::<Head>(alloc, board, bytes, place)?;
        read_rest(alloc, board, bytes, place, head)
    }
}
