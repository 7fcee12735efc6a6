ghost use Rattle.std.specs.Prelude.{◌≡◌};

use crate::queries::{strip_having, strips_beside, strips_meeting};
use geo_rect::{Label, NoMemory, Point, Rect};
use plane_core::{Plane, Side, Strip, Strips};
use std::alloc::Global;
use std::marker::{Brand, Model};
use std::sync::ledger::Blank;
use stitch_walk::Tiling;
use tile_paint::paint;

/// A plane whose strips are the tiles of a linked tiling.
#[derive(Drop)]
pub struct StitchedPlane {
    tiling: Tiling,
}

impl Model for StitchedPlane {
    ghost use Rattle.stitch_walk.specs.Links.{Tiles};
    ghost use Rattle.strip_merge.specs.Stitched.{IsStitched};

    ghost Value = { Tiles };

    ghost view = { λ plane. plane.tiling };

    ghost invariant = { λ plane. IsStitched plane.tiling.store plane.tiling.domain };
}

impl Plane for StitchedPlane {
    ghost use Rattle.strip_merge.specs.StripsOf.{strips_of};

    ghost region = { λ plane. plane.domain };

    ghost strips = { λ plane. strips_of plane.store };

    fn new(alloc: Global, domain: Rect) -> Result<Self, NoMemory> {
        let tiling = Tiling::whole(alloc, domain)?;
        let _domain = tiling.domain;
        Ok(StitchedPlane { tiling })
    }

    fn domain(&self) -> Rect {
        self.tiling.domain
    }

    fn strip_at(&self, p: Point) -> Strip {
        strip_having::<Brand>(&self.tiling, p, Blank::new(1))
    }

    fn strips_in(&self, alloc: Global, area: Rect) -> Result<Strips, NoMemory> {
        strips_meeting::<Brand>(alloc, &self.tiling, area, Blank::new(1))
    }

    fn beside(&self, alloc: Global, t: Strip, side: Side) -> Result<Strips, NoMemory> {
        strips_beside::<Brand>(alloc, &self.tiling, t, side, Blank::new(1))
    }

    fn paint(self, alloc: Global, area: Rect, label: Label) -> Result<Self, NoMemory> {
        let tiling = paint(self.tiling, alloc, area, label)?;
        let _domain = tiling.domain;
        Ok(StitchedPlane { tiling })
    }
}
