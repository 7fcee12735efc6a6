//! Walks to a point. Each ends by the row or column that it goes to, and what is left to it.
ghost use Rattle.std.specs.Prelude.{◌≡◌, Some};
ghost use Rattle.geo_rect.specs.Plane.{HasPoint};
ghost use Rattle.plane_core.specs.declared.sides.Side.TheVariants.{Below, Left};
ghost use Rattle.tile_store.specs.Store.{tile_at, IsPresent};
ghost use Rattle.stitch_walk.specs.Links.{Holds, stitch_point};
ghost use Rattle.stitch_walk.specs.Reaches.{opposite, IsLevel, Reaches, IsPast};

use crate::sides::{begins_after, beside, ends_short, following, stitch};
use crate::tilings::Tiling;
use geo_rect::{Point, Rect};
use plane_core::Side;
use std::sync::ledger::Ledger;
use tile_store::{Steps, Tile, TileId};

/// The point in the first column of `r` and in the row of `p`.
fn corner(r: Rect, p: Point) -> Point
    ensures column { result.x ≡ r.x0 }
    ensures row { result.y ≡ p.y }
{
    Point { x: r.x0, y: p.y }
}

impl Tiling {
    /// The number of the tile that has the point `p` of the domain, found from the tile under `hint`.
    pub fn locate<L: Ledger>(&self, hint: TileId, p: Point, steps: &mut Steps<L>) -> TileId
        requires hint { IsPresent self.now.store hint }
        requires point { HasPoint self.now.domain p }
        ensures { Holds self.now.store result p }
    {
        let start = self.tile(hint, steps).area;
        let corner = corner(start, p);
        let in_row = self.go_upright(hint, corner, steps);
        self.go_level(in_row, p, steps)
    }

    /// The tile that has `p`, from a tile that has a point in the column of `p`.
    fn go_upright<L: Ledger>(&self, id: TileId, p: Point, steps: &mut Steps<L>) -> TileId
        requires column { IsLevel self.now.store Below p id }
        requires point { HasPoint self.now.domain p }
        ensures { Holds self.now.store result p }
    {
        let high = self.go_straight(id, Side::Above, p, steps);
        self.go_straight(high, Side::Below, p, steps)
    }

    /// The tile that has `p`, from a tile that has a point in the row of `p`.
    fn go_level<L: Ledger>(&self, id: TileId, p: Point, steps: &mut Steps<L>) -> TileId
        requires row { IsLevel self.now.store Left p id }
        requires point { HasPoint self.now.domain p }
        ensures { Holds self.now.store result p }
    {
        let right = self.go_straight(id, Side::Right, p, steps);
        self.go_straight(right, Side::Left, p, steps)
    }

    /// The first tile in a straight line from the tile under `id` that goes as far as `p` on this side.
    fn go_straight<L: Ledger>(
        &self,
        id: TileId,
        side: Side,
        p: Point,
        steps: &mut Steps<L>,
    ) -> TileId
        requires level { IsLevel self.now.store side p id }
        requires point { HasPoint self.now.domain p }
        ensures level { IsLevel self.now.store side p result }
        ensures reaches { Reaches self.now.store side p result }
        ensures kept { Reaches self.now.store (opposite side) p id → Reaches self.now.store (opposite side) p result }
    {
        let mut at = id;
        let mut tile = self.tile(at, steps);
        while begins_after(tile.area, side, p) {
            at = self.go_across(at, side, beside(tile.area, side, p), steps);
            tile = self.tile(at, steps);
        }
        at
    }

    /// The tile that has `p`, a point of the domain one step past the edge of the tile under `id`.
    pub fn go_across<L: Ledger>(
        &self,
        id: TileId,
        side: Side,
        p: Point,
        steps: &mut Steps<L>,
    ) -> TileId
        requires past { IsPast self.now.store side p id }
        requires point { HasPoint self.now.domain p }
        ensures { Holds self.now.store result p }
    {
        let start = self.tile(id, steps);
        let mut at = self.follow(id, &start, side);
        let mut tile = self.tile(at, steps);
        while ends_short(tile.area, side, p) {
            at = self.follow(at, &tile, following(side));
            tile = self.tile(at, steps);
        }
        at
    }

    /// The tile that a stitch of the tile under `id` names. Its point lies in the domain.
    fn follow(&self, id: TileId, t: &Tile, side: Side) -> TileId
        requires there { tile_at self.now.store id ≡ Some t.now }
        requires inside { HasPoint self.now.domain (stitch_point side t.now.area) }
        ensures { Holds self.now.store result (stitch_point side t.now.area) }
    {
        let _domain = self.domain;
        match stitch(t, side) {
            Some(next) => next,
            None => unreachable!(),
        }
    }
}
