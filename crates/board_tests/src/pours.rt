//! Copper poured into a zone.

ghost use Rattle.std.specs.Prelude.{◌≡◌, ◌<◌, length, IfOk, IsTrue};
ghost use Rattle.board_model.specs.Shapes.{board_shapes};
ghost use Rattle.board_parts.specs.Rules.{IsOnBoard};
ghost use Rattle.plane_set.specs.Standing.{StandsFor};

use crate::boards::on_board;
use board_model::{Board, Made, Shape, all_shapes};
use flat_plane::FlatPlane;
use geo_rect::{LayerId, List, NetId, NoMemory, Rect};
use plane_core::Plane;
use plane_set::PlaneSet;
use std::alloc::Global;
use std::process::Abort;
use std::test::Fail;
use zone_fill::{fill_text, pour};

const TOP: LayerId = LayerId(0);

const NET: NetId = NetId(0);

/// A wall, and a pin of the net on each side of it.
const WALL: &str =
    "board 1 demo 40 20;layer top;class sig;rule top sig 1 2;block top 18 0 22 14;net a sig;pin a 4 9 6 11 top top;pin a 34 9 36 11 top top;end;";

fn is_within(area: Rect, width: i32, height: i32) -> bool
    ensures { IsTrue result → IsOnBoard width height area }
{
    if area.x0 < 0 {
        return false;
    }
    if area.y0 < 0 {
        return false;
    }
    if area.x1 > width {
        return false;
    }
    area.y1 <= height
}

/// Whether the zone is a rectangle of the board.
fn is_on_board(board: &Board, zone: Rect) -> bool
    ensures { IsTrue result → IsOnBoard board.now.parts.width board.now.parts.height zone }
{
    is_within(zone, board.width(), board.height())
}

/// The shapes of the board alone.
fn shapes_of(alloc: Global, board: &Board) -> Result<List<Shape>, NoMemory>
    ensures { IfOk result (λ shapes. shapes ≡ board_shapes board.now.parts) }
{
    let made = Made::none(alloc, board)?;
    all_shapes(alloc, board, &made)
}

/// The text of the pour of the net in the zone, over planes that stand for these shapes.
fn text_over<P: Plane>(
    alloc: Global,
    board: &Board,
    planes: &PlaneSet<P>,
    zone: Rect,
    shapes: &[Shape],
) -> Result<List<u8>, NoMemory>
    requires planes { StandsFor board.now.parts shapes.now planes.now }
    requires net { 0 < length board.now.parts.net_names }
    requires layer { 0 < length board.now.parts.layers }
    requires zone { IsOnBoard board.now.parts.width board.now.parts.height zone }
{
    let boxes = pour(alloc, board, planes, NET, TOP, zone, shapes)?;
    fill_text(alloc, board, NET, TOP, boxes.as_slice())
}

/// The text of the pour of the net in the zone, with its planes.
fn text_with<P: Plane>(
    alloc: Global,
    board: &Board,
    planes: &PlaneSet<P>,
    zone: Rect,
) -> Result<List<u8>, NoMemory>
    requires planes { StandsFor board.now.parts (board_shapes board.now.parts) planes.now }
    requires net { 0 < length board.now.parts.net_names }
    requires layer { 0 < length board.now.parts.layers }
    requires zone { IsOnBoard board.now.parts.width board.now.parts.height zone }
{
    let shapes = shapes_of(alloc, board)?;
    text_over(alloc, board, planes, zone, shapes.as_slice())
}

/// The text of the pour of the net in the zone on this board.
fn text_on<P: Plane>(
    rt: &impl Abort,
    alloc: Global,
    board: &Board,
    zone: Rect,
) -> Result<List<u8>, Fail> {
    assert!(rt; board.nets() > 0);
    assert!(rt; board.layers() > 0);
    assert!(rt; is_on_board(board, zone));
    let planes: PlaneSet<P> = PlaneSet::build(alloc, board)?;
    Ok(text_with(alloc, board, &planes, zone)?)
}

/// Looks at the text of the pour of the net in the zone.
fn expect_pour<P: Plane>(
    rt: &impl Abort,
    alloc: Global,
    board: &Board,
    zone: Rect,
    wanted: &str,
) -> Result<(), Fail> {
    let text = text_on::<P>(rt, alloc, board, zone)?;
    assert!(rt; text.as_slice() == wanted.as_bytes());
    Ok(())
}

#[test]
fn a_pour_flows_on_this_side_of_the_wall(rt: HostRuntime) -> Result<(), Fail> {
    let left =
        "fill a top 5\nbox 1 1 15 6\nbox 1 7 1 13\nbox 2 7 8 13\nbox 9 7 15 13\nbox 1 14 15 16\n";
    for (zone, wanted) in [
        (Rect::new(0, 0, 20, 16), left),
        (Rect::new(25, 0, 40, 5), "fill a top 0\n"),
    ] {
        on_board(
            rt.alloc(),
            WALL,
            &|board: &Board| { expect_pour::<FlatPlane>(&rt, rt.alloc(), board, zone, wanted) },
        )?;
    }
    Ok(())
}
