//! Whether the corners of a connection have coordinates that can be told.

ghost use Rattle.std.specs.Prelude.{◌↔◌, IsTrue};
ghost use Rattle.board_model.specs.Shapes.{place_of};
ghost use Rattle.board_model.specs.WellFormed.{IsCoordinate, IsPlace};
ghost use Rattle.walk_check.specs.Corners.{HasPlaces};

use board_model::Conn;
use geo_rect::Node;

/// Whether `v` lies between -2^24 and 2^24.
fn is_coordinate(v: i32) -> bool
    ensures { IsTrue result ↔ IsCoordinate v }
{
    if v < -(1 << 24) {
        return false;
    }
    v <= 1 << 24
}

/// Whether both coordinates of the node do.
fn has_place(v: Node) -> bool
    ensures { IsTrue result ↔ IsPlace (place_of v) }
{
    if !is_coordinate(v.x) {
        return false;
    }
    is_coordinate(v.y)
}

/// Whether the coordinates of each corner lie between -2^24 and 2^24.
pub fn has_places(conn: &Conn) -> bool
    ensures { IsTrue result ↔ HasPlaces conn.now }
{
    if !has_place(conn.start) {
        return false;
    }
    for leg in conn.legs.as_slice() {
        if !has_place(leg.end()) {
            return false;
        }
    }
    true
}
