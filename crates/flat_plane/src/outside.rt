//! What painting leaves below, above and away from the painted area.
ghost use Rattle.std.specs.Prelude.{◌≡◌, ◌<ℤ◌, ◌↔◌, Contains, IfOk, IsTrue};
ghost use Rattle.geo_rect.specs.declared.shapes.Point.{Point as Place};
ghost use Rattle.geo_rect.specs.Axis.{HasNumber};
ghost use Rattle.geo_rect.specs.Plane.{rows, HasPoint};
ghost use Rattle.plane_core.specs.Choice.{IsChoice};
ghost use Rattle.plane_core.specs.Strips.{IsHeld, IsInOrder};
ghost use Rattle.flat_plane.specs.Draft.{IsAffected, KeepsPoints};
ghost use Rattle.flat_plane.specs.Painting.{CanPaint, HoldsOutside, HoldsUntouched, IsDraftOf};

use crate::brushes::Brush;
use crate::checks::is_affected;
use crate::drafts::add;
use crate::parts::{part_after, part_before, with_rows};
use geo_rect::{List, NoMemory, Rect};
use plane_core::Strip;
use std::alloc::Global;

/// Whether painting the area leaves the strip as it is.
fn is_untouched(area: Rect, s: Rect) -> bool
    ensures { IsTrue result ↔ (¬ IsAffected area s) }
{
    if is_affected(area, s) {
        return false;
    }
    true
}

/// The strips that painting leaves as they are.
fn untouched(alloc: Global, strips: &[Strip], area: Rect) -> Result<List<Strip>, NoMemory>
    requires { IsInOrder strips.now }
    ensures { IfOk result (IsChoice strips.now (λ s. ¬ IsAffected area s.area)) }
{
    let mut found = List::new(alloc);
    for strip in strips {
        if is_untouched(area, strip.area) {
            found.push(*strip)?;
        }
    }
    Ok(found)
}

/// Adds what of the strip lies below the area.
fn add_lower_end(
    alloc: Global,
    strips: &[Strip],
    brush: Brush,
    draft: List<Strip>,
    strip: Strip,
) -> Result<List<Strip>, NoMemory>
    requires can_paint { CanPaint strips.now brush }
    requires listed { Contains strips.now strip }
    requires draft { IsDraftOf strips.now brush draft }
    ensures draft { IfOk result (IsDraftOf strips.now brush) }
    ensures keeps { IfOk result (KeepsPoints draft) }
    ensures adds { IfOk result (λ new. (p : Place) → HasPoint strip.area p → p.y <ℤ brush.area.y0 → IsHeld new p) }
{
    if strip.area.y0 >= brush.area.y0 {
        return Ok(draft);
    }
    let rows = part_before(strip.area.rows(), brush.area.rows());
    add(alloc, draft.as_slice(), with_rows(strip, rows))
}

/// Adds what of the strip lies above the area.
fn add_upper_end(
    alloc: Global,
    strips: &[Strip],
    brush: Brush,
    draft: List<Strip>,
    strip: Strip,
) -> Result<List<Strip>, NoMemory>
    requires can_paint { CanPaint strips.now brush }
    requires listed { Contains strips.now strip }
    requires draft { IsDraftOf strips.now brush draft }
    ensures draft { IfOk result (IsDraftOf strips.now brush) }
    ensures keeps { IfOk result (KeepsPoints draft) }
    ensures adds { IfOk result (λ new. (p : Place) → HasPoint strip.area p → brush.area.y1 <ℤ p.y → IsHeld new p) }
{
    if strip.area.y1 <= brush.area.y1 {
        return Ok(draft);
    }
    let rows = part_after(strip.area.rows(), brush.area.rows());
    add(alloc, draft.as_slice(), with_rows(strip, rows))
}

/// Adds what of the strip lies below or above the area, if painting can change the strip.
fn add_ends(
    alloc: Global,
    strips: &[Strip],
    brush: Brush,
    draft: List<Strip>,
    strip: Strip,
) -> Result<List<Strip>, NoMemory>
    requires can_paint { CanPaint strips.now brush }
    requires listed { Contains strips.now strip }
    requires draft { IsDraftOf strips.now brush draft }
    ensures draft { IfOk result (IsDraftOf strips.now brush) }
    ensures keeps { IfOk result (KeepsPoints draft) }
    ensures adds { IfOk result (λ new. (p : Place) → HasPoint strip.area p → IsAffected brush.area strip.area → ¬ HasNumber (rows brush.area) p.y → IsHeld new p) }
{
    if !is_affected(brush.area, strip.area) {
        return Ok(draft);
    }
    let lower = add_lower_end(alloc, strips, brush, draft, strip)?;
    let both = add_upper_end(alloc, strips, brush, lower, strip)?;
    Ok(both)
}

/// A draft with all that painting leaves, but for the rows of the area.
pub fn outside(alloc: Global, strips: &[Strip], brush: Brush) -> Result<List<Strip>, NoMemory>
    requires { CanPaint strips.now brush }
    ensures draft { IfOk result (IsDraftOf strips.now brush) }
    ensures untouched { IfOk result (HoldsUntouched strips.now brush) }
    ensures outside { IfOk result (HoldsOutside strips.now brush) }
{
    let mut draft = untouched(alloc, strips, brush.area)?;
    for strip in strips {
        draft = add_ends(alloc, strips, brush, draft, *strip)?;
    }
    Ok(draft)
}
