//! Some of the strips of a list, in order.
ghost use Rattle.std.specs.Prelude.{Contains, IfOk};
ghost use Rattle.plane_core.specs.declared.strips.Strip.{Strip as Piece};
ghost use Rattle.plane_core.specs.Choice.{IsChoice, Meets};
ghost use Rattle.plane_core.specs.Labels.{IsSmall};
ghost use Rattle.plane_core.specs.Sides.{IsBeside};
ghost use Rattle.plane_core.specs.Strips.{IsInOrder};

use geo_rect::{NoMemory, Rect};
use plane_core::{Side, Strip, Strips, meets};
use std::alloc::Global;

/// The strips that have a point of the area.
pub fn strips_meeting(alloc: Global, strips: &[Strip], area: Rect) -> Result<Strips, NoMemory>
    requires { IsInOrder strips.now }
    ensures { IfOk result (IsChoice strips.now (λ s. Meets s.area area)) }
{
    let mut found = Strips::new(alloc);
    for strip in strips {
        if meets(strip.area, area) {
            found.push(*strip)?;
        }
    }
    Ok(found)
}

/// The strips that have a point one step past the edge of the rectangle on this side.
pub fn strips_beside(
    alloc: Global,
    strips: &[Strip],
    t: Rect,
    side: Side,
) -> Result<Strips, NoMemory>
    requires in_order { IsInOrder strips.now }
    requires small { (s : Piece) → Contains strips.now s → IsSmall s.area }
    requires small_first { IsSmall t }
    ensures { IfOk result (IsChoice strips.now (λ s. IsBeside side t s.area)) }
{
    let mut found = Strips::new(alloc);
    for strip in strips {
        if side.is_beside(t, strip.area) {
            found.push(*strip)?;
        }
    }
    Ok(found)
}
