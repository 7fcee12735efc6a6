//! The tiles that meet an area, from the one that has its lower left corner, each over one step to
//! the right or upwards.
ghost use Rattle.std.specs.Prelude.{◌≡◌, Contains, IfOk, IsTrue, ◌↔◌};
ghost use Rattle.geo_rect.specs.Plane.{LiesIn};
ghost use Rattle.plane_core.specs.Labels.{IsSmall};
ghost use Rattle.tile_store.specs.declared.tiles.TileId.{TileId as Number};
ghost use Rattle.tile_store.specs.Store.{IsPresent};
ghost use Rattle.stitch_walk.specs.Neighbours.{AreMeeting, IsDistinct};
ghost use Rattle.stitch_walk.specs.Sweeps.{IsEntryOf, EntersFrom, AreEntered, AreAllEntered};

use crate::ids::Ids;
use crate::sides::has_point;
use crate::tilings::Tiling;
use geo_rect::{NoMemory, Point, Rect};
use plane_core::meets;
use std::alloc::Global;
use std::sync::ledger::Ledger;
use tile_store::{Steps, TileId};

/// The point from which a sweep over the area enters `r`; `None` where it begins in `r`.
fn entry(r: Rect, area: Rect) -> Option<Point>
    requires { IsSmall r }
    ensures { IsEntryOf area r result }
{
    if area.x0 < r.x0 {
        return Some(Point {
            x: r.x0 - 1,
            y: r.y0.max(area.y0),
        });
    }
    if area.y0 < r.y0 {
        return Some(Point {
            x: area.x0,
            y: r.y0 - 1,
        });
    }
    None
}

/// Whether a sweep over the area enters `r` from `t`.
fn enters_from(r: Rect, area: Rect, t: Rect) -> bool
    requires { IsSmall r }
    ensures { IsTrue result ↔ EntersFrom area t r }
{
    let Some(p) = entry(r, area) else {
        return false;
    };
    if has_point(t, p) {
        return meets(r, area);
    }
    false
}

/// The lower left corner of `r`.
fn first_point(r: Rect) -> Point
    ensures { result ≡ record { x = r.x0; y = r.y0 } }
{
    Point { x: r.x0, y: r.y0 }
}

impl Tiling {
    /// The tiles that meet a part of the domain, each once.
    pub fn sweep<L: Ledger>(
        &self,
        alloc: Global,
        area: Rect,
        steps: &mut Steps<L>,
    ) -> Result<Ids, NoMemory>
        requires { LiesIn area self.now.domain }
        ensures { IfOk result (λ found. AreMeeting self.now.store area found) }
    {
        let root = self.locate(self.hint(), first_point(area), steps);
        let mut found = Ids::new(alloc);
        found.push(root)?;
        let mut place = 0;
        while place < found.len() {
            let entered = self.all_entered(alloc, found.at(place), area, steps)?;
            found.append(entered.as_slice())?;
            place += 1;
        }
        Ok(found)
    }

    /// All tiles that a sweep over the area enters from the tile under `id`.
    fn all_entered<L: Ledger>(
        &self,
        alloc: Global,
        id: TileId,
        area: Rect,
        steps: &mut Steps<L>,
    ) -> Result<Ids, NoMemory>
        requires { IsPresent self.now.store id }
        ensures { IfOk result (λ found. AreAllEntered self.now.store area id found) }
    {
        let _domain = self.domain;
        let right = self.side_walk::<2, L>(alloc, id, steps)?;
        let mut found = self.entered(alloc, id, right.as_slice(), area, steps)?;
        let above = self.side_walk::<3, L>(alloc, id, steps)?;
        let upper = self.entered(alloc, id, above.as_slice(), area, steps)?;
        found.append(upper.as_slice())?;
        Ok(found)
    }

    /// Those of the near tiles that a sweep over the area enters from the tile under `id`.
    fn entered<L: Ledger>(
        &self,
        alloc: Global,
        id: TileId,
        near: &[TileId],
        area: Rect,
        steps: &mut Steps<L>,
    ) -> Result<Ids, NoMemory>
        requires present { IsPresent self.now.store id }
        requires near { (j : Number) → Contains near.now j → IsPresent self.now.store j }
        requires once { IsDistinct near.now }
        ensures { IfOk result (λ found. AreEntered self.now.store area id near.now found) }
    {
        let tile = self.tile(id, steps);
        let mut found = Ids::new(alloc);
        for next in near {
            if enters_from(self.tile(*next, steps).area, area, tile.area) {
                found.push(*next)?;
            }
        }
        Ok(found)
    }
}
