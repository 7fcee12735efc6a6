ghost use Rattle.std.specs.Prelude.{◌≡◌, ◌<◌, ◌≤◌, length};
ghost use Rattle.reply_reader.specs.Blocks.{item_block, cert_block, made_block, fail_block, rest_block, routed_rest, routed_block};
ghost use Rattle.reply_reader.specs.Forms.{HasGood};
ghost use Rattle.reply_reader.specs.Parts.{Part, Tells, counted};
ghost use Rattle.reply_reader.specs.Said.{leg_line, entry_line, violation_line, strip_line, IsRouteHead};

use crate::heads::{CertHead, ConnHead, NoneHead, RouteHead};
use crate::parts::{Readable, read_counted, read_line};
use crate::places::Place;
use crate::readings::ReadReplies;
use board_model::{Board, Conn, Leg, Violation};
use geo_rect::Node;
use plane_core::Strip;
use route_law::{Cert, Entry, Fail, Item, Made1, Routed};
use std::alloc::Global;

impl Readable for Leg {
    ghost piece = { leg_line };

    fn read(
        alloc: Global,
        board: &Board,
        bytes: &[u8],
        place: &mut Place,
    ) -> Result<Leg, ReadReplies> {
        read_line(alloc, board, bytes, place)
    }
}

impl Readable for Entry {
    ghost piece = { entry_line };

    fn read(
        alloc: Global,
        board: &Board,
        bytes: &[u8],
        place: &mut Place,
    ) -> Result<Entry, ReadReplies> {
        read_line(alloc, board, bytes, place)
    }
}

impl Readable for Violation {
    ghost piece = { violation_line };

    fn read(
        alloc: Global,
        board: &Board,
        bytes: &[u8],
        place: &mut Place,
    ) -> Result<Violation, ReadReplies> {
        read_line(alloc, board, bytes, place)
    }
}

impl Readable for Strip {
    ghost piece = { strip_line };

    fn read(
        alloc: Global,
        board: &Board,
        bytes: &[u8],
        place: &mut Place,
    ) -> Result<Strip, ReadReplies> {
        read_line(alloc, board, bytes, place)
    }
}

impl Readable for Item {
    ghost piece = { item_block };

    fn read(
        alloc: Global,
        board: &Board,
        bytes: &[u8],
        place: &mut Place,
    ) -> Result<Item, ReadReplies> {
        let head = read_line::<ConnHead>(alloc, board, bytes, place)?;
        let start = read_line::<Node>(alloc, board, bytes, place)?;
        let legs = read_counted::<Leg>(alloc, board, bytes, place, head.legs)?;
        Ok(Item {
            number: head.number,
            conn: Conn {
                start,
                legs,
                cost: head.cost,
            },
        })
    }
}

impl Readable for Cert {
    ghost piece = { cert_block };

    fn read(
        alloc: Global,
        board: &Board,
        bytes: &[u8],
        place: &mut Place,
    ) -> Result<Cert, ReadReplies> {
        let head = read_line::<CertHead>(alloc, board, bytes, place)?;
        let entries = read_counted::<Entry>(alloc, board, bytes, place, head.entries)?;
        Ok(Cert {
            bound: head.bound,
            entries,
        })
    }
}

impl Readable for Made1 {
    ghost piece = { made_block };

    fn read(
        alloc: Global,
        board: &Board,
        bytes: &[u8],
        place: &mut Place,
    ) -> Result<Made1, ReadReplies> {
        let item = Item::read(alloc, board, bytes, place)?;
        let cert = Cert::read(alloc, board, bytes, place)?;
        Ok(Made1 {
            number: item.number,
            conn: item.conn,
            cert,
        })
    }
}

/// The connection that cannot be made.
fn read_fail(
    alloc: Global,
    board: &Board,
    bytes: &[u8],
    place: &mut Place,
) -> Result<Fail, ReadReplies>
    ensures { Tells (fail_block board.now.parts) bytes.now place.old place.new result }
{
    let head = read_line::<NoneHead>(alloc, board, bytes, place)?;
    let cert = Cert::read(alloc, board, bytes, place)?;
    Ok(Fail {
        number: head.number,
        cert,
    })
}

/// The connection that cannot be made, where fewer were made than were missing.
fn read_rest(
    alloc: Global,
    board: &Board,
    bytes: &[u8],
    place: &mut Place,
    head: RouteHead,
) -> Result<Option<Fail>, ReadReplies>
    requires { head.made ≤ head.missing }
    ensures { Tells (rest_block board.now.parts head.missing head.made) bytes.now place.old place.new result }
{
    if head.made == head.missing {
        return Ok(None);
    }
    let fail = read_fail(alloc, board, bytes, place)?;
    Ok(Some(fail))
}

/// What came of a net, behind its first line.
pub fn read_routed(
    alloc: Global,
    board: &Board,
    bytes: &[u8],
    place: &mut Place,
    head: RouteHead,
) -> Result<Routed, ReadReplies>
    requires { IsRouteHead board.now.parts head }
    ensures { Tells (routed_rest board.now.parts head) bytes.now place.old place.new result }
{
    let made = read_counted::<Made1>(alloc, board, bytes, place, head.made)?;
    let none = read_rest(alloc, board, bytes, place, head)?;
    Ok(Routed {
        net: head.net,
        missing: head.missing,
        made,
        none,
    })
}

impl Readable for Routed {
    ghost piece = { routed_block };

    fn read(
        alloc: Global,
        board: &Board,
        bytes: &[u8],
        place: &mut Place,
    ) -> Result<Routed, ReadReplies> {
        let head = read_line::<RouteHead>(alloc, board, bytes, place)?;
        read_routed(alloc, board, bytes, place, head)
    }
}
