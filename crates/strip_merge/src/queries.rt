//! The strips of a tiling at a point, in an area and beside a strip.
ghost use Rattle.std.specs.Prelude.{◌≡◌, ◌<◌, Contains, IfOk};
ghost use Rattle.geo_rect.specs.Plane.{HasPoint, LiesIn};
ghost use Rattle.plane_core.specs.Choice.{IsChoice, Meets};
ghost use Rattle.plane_core.specs.Sides.{IsBeside};
ghost use Rattle.tile_store.specs.Store.{IsPresent};
ghost use Rattle.stitch_walk.specs.Neighbours.{AreNeighbours};
ghost use Rattle.strip_merge.specs.StripsOf.{strips_of};

use crate::orders::ordered_strips;
use geo_rect::{NoMemory, Point, Rect};
use plane_core::{Side, Strip, Strips};
use std::alloc::Global;
use std::sync::ledger::{Blank, Ledger};
use stitch_walk::{Ids, Tiling};
use tile_store::{Steps, TileId};

/// The strip that has the point `p` of the domain.
pub fn strip_having<L: Ledger>(tiling: &Tiling, p: Point, blank: Blank) -> Strip
    requires name { blank.name ≡ L.name }
    requires parts { blank.parts ≡ L.parts }
    requires some { 0 < blank.parts }
    requires point { HasPoint tiling.now.domain p }
    ensures has_point { HasPoint result.area p }
    ensures listed { Contains (strips_of tiling.now.store) result }
{
    let mut steps = Steps::<L>::new(blank);
    let id = tiling.locate(tiling.hint(), p, &mut steps);
    let tile = tiling.tile(id, &mut steps);
    Strip {
        area: tile.area,
        label: tile.label,
    }
}

/// The strips that have a point of the area, in order.
pub fn strips_meeting<L: Ledger>(
    alloc: Global,
    tiling: &Tiling,
    area: Rect,
    blank: Blank,
) -> Result<Strips, NoMemory>
    requires name { blank.name ≡ L.name }
    requires parts { blank.parts ≡ L.parts }
    requires some { 0 < blank.parts }
    requires area { LiesIn area tiling.now.domain }
    ensures { IfOk result (λ found. IsChoice (strips_of tiling.now.store) (λ s. Meets s.area area) found) }
{
    let mut steps = Steps::<L>::new(blank);
    let ids = tiling.sweep(alloc, area, &mut steps)?;
    ordered_strips(alloc, tiling, ids.as_slice(), &mut steps)
}

/// The lower left corner of `r`.
fn first_point(r: Rect) -> Point
    ensures { result ≡ record { x = r.x0; y = r.y0 } }
{
    Point { x: r.x0, y: r.y0 }
}

/// The tiles on a side of the tile under a number that is present.
fn walk<L: Ledger>(
    alloc: Global,
    tiling: &Tiling,
    id: TileId,
    side: Side,
    steps: &mut Steps<L>,
) -> Result<Ids, NoMemory>
    requires { IsPresent tiling.now.store id }
    ensures { IfOk result (λ found. AreNeighbours tiling.now.store side id found) }
{
    match side {
        Side::Left => tiling.side_walk::<0, L>(alloc, id, steps),
        Side::Below => tiling.side_walk::<1, L>(alloc, id, steps),
        Side::Right => tiling.side_walk::<2, L>(alloc, id, steps),
        Side::Above => tiling.side_walk::<3, L>(alloc, id, steps),
    }
}

/// The strips that have a point one step past the edge of the strip `t` on this side, in order.
pub fn strips_beside<L: Ledger>(
    alloc: Global,
    tiling: &Tiling,
    t: Strip,
    side: Side,
    blank: Blank,
) -> Result<Strips, NoMemory>
    requires name { blank.name ≡ L.name }
    requires parts { blank.parts ≡ L.parts }
    requires some { 0 < blank.parts }
    requires listed { Contains (strips_of tiling.now.store) t }
    ensures { IfOk result (λ found. IsChoice (strips_of tiling.now.store) (λ s. IsBeside side t.area s.area) found) }
{
    let mut steps = Steps::<L>::new(blank);
    let id = tiling.locate(tiling.hint(), first_point(t.area), &mut steps);
    let ids = walk(alloc, tiling, id, side, &mut steps)?;
    ordered_strips(alloc, tiling, ids.as_slice(), &mut steps)
}
