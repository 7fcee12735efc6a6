//! Which pieces touch.

ghost use Rattle.std.specs.Prelude.{IsTrue, ◌↔◌, Any};
ghost use Rattle.net_trace.specs.Touching.{SharePoint, Touch};

use crate::copper::Piece;
use geo_rect::{Spot, meet};

/// Whether both pieces have a rectangle on one layer, and the two have a common point.
pub fn touch(a: &Piece, b: &Piece) -> bool
    ensures { IsTrue result ↔ Touch a.now b.now }
{
    for spot in a.area.as_slice() {
        if shares_with_any(*spot, b.area.as_slice()) {
            return true;
        }
    }
    false
}

/// Whether one of the rectangles has a point in common with this one, on its layer.
fn shares_with_any(spot: Spot, area: &[Spot]) -> bool
    ensures { IsTrue result ↔ Any (SharePoint spot) area.now }
{
    for other in area {
        if share_point(spot, *other) {
            return true;
        }
    }
    false
}

/// Whether both rectangles are on one layer and have a common point.
fn share_point(a: Spot, b: Spot) -> bool
    ensures { IsTrue result ↔ SharePoint a b }
{
    if a.layer.0 != b.layer.0 {
        return false;
    }
    match meet(a.area, b.area) {
        Some(_) => true,
        None => false,
    }
}
