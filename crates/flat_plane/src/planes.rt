ghost use Rattle.std.specs.Prelude.{◌≡◌};

use crate::bands::find;
use crate::brushes::Brush;
use crate::pieces::painted_strips;
use crate::queries::{strips_beside, strips_meeting};
use geo_rect::{Label, List, NoMemory, Point, Rect};
use plane_core::{Plane, Side, Strip, Strips};
use std::alloc::Global;
use std::marker::Model;

/// A plane that keeps its strips as one list in order.
#[derive(Drop)]
pub struct FlatPlane {
    domain: Rect,
    strips: List<Strip>,
}

impl Model for FlatPlane {
    ghost use Rattle.flat_plane.specs.Kept.{Kept, IsKept};

    ghost Value = { Kept };

    ghost view = { λ plane. record { domain = plane.domain; strips = plane.strips } };

    ghost invariant = { λ plane. IsKept plane.domain plane.strips };
}

impl Plane for FlatPlane {
    ghost region = { λ plane. plane.domain };

    ghost strips = { λ plane. plane.strips };

    fn new(alloc: Global, domain: Rect) -> Result<Self, NoMemory> {
        let mut strips = List::new(alloc);
        strips.push(Strip {
            area: domain,
            label: Label::Free,
        })?;
        Ok(FlatPlane { domain, strips })
    }

    fn domain(&self) -> Rect {
        self.domain
    }

    fn strip_at(&self, p: Point) -> Strip {
        find(self.strips.as_slice(), p)
    }

    fn strips_in(&self, alloc: Global, area: Rect) -> Result<Strips, NoMemory> {
        strips_meeting(alloc, self.strips.as_slice(), area)
    }

    fn beside(&self, alloc: Global, t: Strip, side: Side) -> Result<Strips, NoMemory> {
        strips_beside(alloc, self.strips.as_slice(), t.area, side)
    }

    fn paint(self, alloc: Global, area: Rect, label: Label) -> Result<Self, NoMemory> {
        let brush = Brush {
            domain: self.domain,
            area,
            label,
        };
        let strips = painted_strips(alloc, self.strips.as_slice(), brush)?;
        Ok(FlatPlane {
            domain: brush.domain,
            strips,
        })
    }
}
