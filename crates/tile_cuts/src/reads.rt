//! Reading without a counter of steps at hand: each call makes one of its own, which takes no bytes.
ghost use Rattle.std.specs.Prelude.{◌≡◌, ◌<◌, Some};
ghost use Rattle.geo_rect.specs.Plane.{HasPoint};
ghost use Rattle.tile_store.specs.Store.{tile_at, IsPresent};
ghost use Rattle.stitch_walk.specs.Links.{Holds};
ghost use Rattle.stitch_walk.specs.Reaches.{IsPast};

use geo_rect::Point;
use plane_core::Side;
use std::marker::Brand;
use std::sync::ledger::{Blank, Ledger};
use stitch_walk::Tiling;
use tile_store::{Steps, Tile, TileId, TileStore};

/// The tile under a number that is present.
pub fn read(store: &TileStore, id: TileId) -> Tile
    requires { IsPresent store.now id }
    ensures { tile_at store.now id ≡ Some result }
{
    read_counted::<Brand>(store, id, Blank::new(1))
}

fn read_counted<L: Ledger>(store: &TileStore, id: TileId, blank: Blank) -> Tile
    requires name { blank.name ≡ L.name }
    requires parts { blank.parts ≡ L.parts }
    requires some { 0 < blank.parts }
    requires present { IsPresent store.now id }
    ensures { tile_at store.now id ≡ Some result }
{
    let mut steps = Steps::<L>::new(blank);
    store.read(id, &mut steps)
}

/// The tile that has `p`, a point of the domain one step past the edge of the tile under `id`.
pub fn go_across(t: &Tiling, id: TileId, side: Side, p: Point) -> TileId
    requires past { IsPast t.now.store side p id }
    requires point { HasPoint t.now.domain p }
    ensures { Holds t.now.store result p }
{
    go_counted::<Brand>(t, id, side, p, Blank::new(1))
}

fn go_counted<L: Ledger>(t: &Tiling, id: TileId, side: Side, p: Point, blank: Blank) -> TileId
    requires name { blank.name ≡ L.name }
    requires parts { blank.parts ≡ L.parts }
    requires some { 0 < blank.parts }
    requires past { IsPast t.now.store side p id }
    requires point { HasPoint t.now.domain p }
    ensures { Holds t.now.store result p }
{
    let mut steps = Steps::<L>::new(blank);
    t.go_across(id, side, p, &mut steps)
}
