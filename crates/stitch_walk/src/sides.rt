//! Questions about a rectangle and a point, from one of the four sides.
ghost use Rattle.std.specs.Prelude.{◌≡◌, ◌↔◌, IsTrue};
ghost use Rattle.geo_rect.specs.Plane.{HasPoint};
ghost use Rattle.plane_core.specs.Labels.{IsSmall};
ghost use Rattle.stitch_walk.specs.Links.{stitch};
ghost use Rattle.stitch_walk.specs.Reaches.{following, beside_point, EndsShort, BeginsAfter};

use geo_rect::{Point, Rect};
use plane_core::Side;
use tile_store::{Tile, TileId};

/// The stitch of a tile on a side.
pub fn stitch(t: &Tile, side: Side) -> Option<TileId>
    ensures { result ≡ stitch side t.now }
{
    match side {
        Side::Left => t.bl,
        Side::Below => t.lb,
        Side::Right => t.tr,
        Side::Above => t.rt,
    }
}

/// The side of the stitch by which one neighbour on `side` leads to the next.
pub fn following(side: Side) -> Side
    ensures { result ≡ following side }
{
    match side {
        Side::Left => Side::Above,
        Side::Below => Side::Right,
        Side::Right => Side::Below,
        Side::Above => Side::Left,
    }
}

/// The point right past the edge of `r` on this side, in the row or column of `p` that crosses it.
pub fn beside(r: Rect, side: Side, p: Point) -> Point
    requires { IsSmall r }
    ensures { result ≡ beside_point side r p }
{
    match side {
        Side::Left => Point {
            x: r.x0 - 1,
            y: p.y,
        },
        Side::Below => Point {
            x: p.x,
            y: r.y0 - 1,
        },
        Side::Right => Point {
            x: r.x1 + 1,
            y: p.y,
        },
        Side::Above => Point {
            x: p.x,
            y: r.y1 + 1,
        },
    }
}

/// Whether `r`, a neighbour on this side, ends before it comes to `p`.
pub fn ends_short(r: Rect, side: Side, p: Point) -> bool
    ensures { IsTrue result ↔ EndsShort side r p }
{
    match side {
        Side::Left => r.y1 < p.y,
        Side::Below => r.x1 < p.x,
        Side::Right => p.y < r.y0,
        Side::Above => p.x < r.x0,
    }
}

/// Whether `p` lies past the edge of `r` on this side.
pub fn begins_after(r: Rect, side: Side, p: Point) -> bool
    ensures { IsTrue result ↔ BeginsAfter side r p }
{
    match side {
        Side::Left => p.x < r.x0,
        Side::Below => p.y < r.y0,
        Side::Right => r.x1 < p.x,
        Side::Above => r.y1 < p.y,
    }
}

/// Whether `p` is one of the points of `r`.
pub fn has_point(r: Rect, p: Point) -> bool
    ensures { IsTrue result ↔ HasPoint r p }
{
    if begins_after(r, Side::Left, p) {
        return false;
    }
    if begins_after(r, Side::Below, p) {
        return false;
    }
    if begins_after(r, Side::Right, p) {
        return false;
    }
    if begins_after(r, Side::Above, p) {
        return false;
    }
    true
}
