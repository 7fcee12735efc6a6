//! The stitches of a tile, by their sides.
ghost use Rattle.std.specs.Prelude.{◌≡◌, ◌↔◌, IsTrue, Some};
ghost use Rattle.geo_rect.specs.Plane.{HasPoint};
ghost use Rattle.plane_core.specs.Labels.{IsSmall};
ghost use Rattle.stitch_walk.specs.Links.{stitch, stitch_point};
ghost use Rattle.stitch_walk.specs.Reaches.{opposite, following};
ghost use Rattle.tile_cuts.specs.Mending.{with_stitch};

use geo_rect::{Point, Rect};
use plane_core::Side;
use stitch_walk::has_point;
use tile_store::{Tile, TileId};

/// The other side.
pub fn opposite(side: Side) -> Side
    ensures { result ≡ opposite side }
{
    match side {
        Side::Left => Side::Right,
        Side::Below => Side::Above,
        Side::Right => Side::Left,
        Side::Above => Side::Below,
    }
}

/// The point that the tile has which the stitch of a tile of this area names.
pub fn stitch_point(side: Side, r: Rect) -> Point
    requires { IsSmall r }
    ensures { result ≡ stitch_point side r }
{
    match side {
        Side::Left => Point {
            x: r.x0 - 1,
            y: r.y0,
        },
        Side::Below => Point {
            x: r.x0,
            y: r.y0 - 1,
        },
        Side::Right => Point {
            x: r.x1 + 1,
            y: r.y1,
        },
        Side::Above => Point {
            x: r.x1,
            y: r.y1 + 1,
        },
    }
}

/// Whether the stitch of `r`, a neighbour of `area` on this side, should lead into `area`.
pub fn faces(area: Rect, side: Side, r: Rect) -> bool
    requires { IsSmall r }
    ensures { IsTrue result ↔ HasPoint area (stitch_point (opposite side) r) }
{
    has_point(area, stitch_point(opposite(side), r))
}

/// The same tile, whose stitch on the other side than this names the tile under `id`.
pub fn facing(t: Tile, side: Side, id: TileId) -> Tile
    ensures { result ≡ with_stitch (opposite side) (Some id) t }
{
    match side {
        Side::Left => Tile { tr: Some(id), ..t },
        Side::Below => Tile { rt: Some(id), ..t },
        Side::Right => Tile { bl: Some(id), ..t },
        Side::Above => Tile { lb: Some(id), ..t },
    }
}

/// The stitch by which a neighbour on this side leads to the next.
pub fn onward(t: &Tile, side: Side) -> Option<TileId>
    ensures { result ≡ stitch (following side) t.now }
{
    stitch_walk::stitch(t, stitch_walk::following(side))
}
