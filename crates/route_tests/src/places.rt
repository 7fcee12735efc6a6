//! Boxes and places that are on a board.

ghost use Rattle.std.specs.Prelude.{All, IsTrue};
ghost use Rattle.board_parts.specs.Rules.{IsOnBoard};
ghost use Rattle.board_model.specs.Shapes.{place_of};
ghost use Rattle.board_model.specs.WellFormed.{IsCoordinate, IsPlace};
ghost use Rattle.strip_moves.specs.Boxes.{IsBoardBox};
ghost use Rattle.walk_check.specs.Corners.{HasPlaces};

use board_model::{Board, Conn};
use geo_rect::{Node, Rect, Spot};

fn is_within(area: Rect, width: i32, height: i32) -> bool
    ensures { IsTrue result → IsOnBoard width height area }
{
    if area.x0 < 0 {
        return false;
    }
    if area.y0 < 0 {
        return false;
    }
    if area.x1 > width {
        return false;
    }
    area.y1 <= height
}

fn is_on_board(board: &Board, spot: Spot) -> bool
    ensures { IsTrue result → IsBoardBox board.now.parts spot }
{
    if spot.layer.0 >= board.layers() {
        return false;
    }
    is_within(spot.area, board.width(), board.height())
}

pub fn are_on_board(board: &Board, spots: &[Spot]) -> bool
    ensures { IsTrue result → All (IsBoardBox board.now.parts) spots.now }
{
    spots.iter().all(|spot| is_on_board(board, *spot))
}

fn is_near(v: i32) -> bool
    ensures { IsTrue result → IsCoordinate v }
{
    if v < 0 {
        return false;
    }
    v <= 100
}

fn is_place(node: Node) -> bool
    ensures { IsTrue result → IsPlace (place_of node) }
{
    if !is_near(node.x) {
        return false;
    }
    is_near(node.y)
}

pub fn has_places(conn: &Conn) -> bool
    ensures { IsTrue result → HasPlaces conn.now }
{
    if !is_place(conn.start) {
        return false;
    }
    conn.legs.as_slice().iter().all(|leg| is_place(leg.end()))
}
