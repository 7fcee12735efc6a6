//! The rows of the painted area, added to a draft band by band.
ghost use Rattle.std.specs.Prelude.{◌≡◌, ◌≤ℤ◌, IfOk};
ghost use Rattle.geo_rect.specs.Axis.{LiesWithin};
ghost use Rattle.geo_rect.specs.Plane.{rows};
ghost use Rattle.plane_core.specs.Strips.{AreStrips};
ghost use Rattle.flat_plane.specs.Draft.{KeepsPoints};
ghost use Rattle.flat_plane.specs.Painting.{CanPaint, HoldsLeft, HoldsMiddle, HoldsRight, HoldsRows, HoldsUntouched, IsBand, IsDraftOf, new_labels};

use crate::bands::band_at;
use crate::brushes::{Band, Brush};
use crate::checks::are_same_label;
use crate::drafts::add;
use crate::outside::outside;
use crate::parts::{part_after, part_before, strip_of};
use geo_rect::{List, NoMemory};
use plane_core::Strip;
use std::alloc::Global;

/// Adds what of the strip to the left of the area stays, in the rows of the band.
fn add_left(
    alloc: Global,
    strips: &[Strip],
    brush: Brush,
    band: Band,
    draft: List<Strip>,
) -> Result<List<Strip>, NoMemory>
    requires can_paint { CanPaint strips.now brush }
    requires band { IsBand strips.now brush band }
    requires draft { IsDraftOf strips.now brush draft }
    ensures draft { IfOk result (IsDraftOf strips.now brush) }
    ensures keeps { IfOk result (KeepsPoints draft) }
    ensures adds { IfOk result (HoldsLeft brush band.rows band.left) }
{
    let Some(strip) = band.left else {
        return Ok(draft);
    };
    if are_same_label(strip.label, brush.label) {
        return Ok(draft);
    }
    let across = part_before(strip.area.columns(), brush.area.columns());
    let piece = strip_of(across, band.rows, strip.label);
    let new = add(alloc, draft.as_slice(), piece)?;
    Ok(new)
}

/// Adds what of the strip to the right of the area stays, in the rows of the band.
fn add_right(
    alloc: Global,
    strips: &[Strip],
    brush: Brush,
    band: Band,
    draft: List<Strip>,
) -> Result<List<Strip>, NoMemory>
    requires can_paint { CanPaint strips.now brush }
    requires band { IsBand strips.now brush band }
    requires draft { IsDraftOf strips.now brush draft }
    ensures draft { IfOk result (IsDraftOf strips.now brush) }
    ensures keeps { IfOk result (KeepsPoints draft) }
    ensures adds { IfOk result (HoldsRight brush band.rows band.right) }
{
    let Some(strip) = band.right else {
        return Ok(draft);
    };
    if are_same_label(strip.label, brush.label) {
        return Ok(draft);
    }
    let across = part_after(strip.area.columns(), brush.area.columns());
    let piece = strip_of(across, band.rows, strip.label);
    let new = add(alloc, draft.as_slice(), piece)?;
    Ok(new)
}

/// Adds the run of the new label, in the rows of the band.
fn add_middle(
    alloc: Global,
    strips: &[Strip],
    brush: Brush,
    band: Band,
    draft: List<Strip>,
) -> Result<List<Strip>, NoMemory>
    requires can_paint { CanPaint strips.now brush }
    requires band { IsBand strips.now brush band }
    requires draft { IsDraftOf strips.now brush draft }
    ensures draft { IfOk result (IsDraftOf strips.now brush) }
    ensures keeps { IfOk result (KeepsPoints draft) }
    ensures adds { IfOk result (HoldsMiddle band) }
{
    let piece = strip_of(band.across, band.rows, brush.label);
    let new = add(alloc, draft.as_slice(), piece)?;
    Ok(new)
}

/// Adds all that is in the rows of the band, but for the strips that painting leaves as they are.
fn add_band(
    alloc: Global,
    strips: &[Strip],
    brush: Brush,
    band: Band,
    draft: List<Strip>,
) -> Result<List<Strip>, NoMemory>
    requires can_paint { CanPaint strips.now brush }
    requires band { IsBand strips.now brush band }
    requires draft { IsDraftOf strips.now brush draft }
    requires untouched { HoldsUntouched strips.now brush draft }
    ensures draft { IfOk result (IsDraftOf strips.now brush) }
    ensures keeps { IfOk result (KeepsPoints draft) }
    ensures adds { IfOk result (HoldsRows brush.domain band.rows) }
{
    let left = add_left(alloc, strips, brush, band, draft)?;
    let middle = add_middle(alloc, strips, brush, band, left)?;
    let right = add_right(alloc, strips, brush, band, middle)?;
    Ok(right)
}

/// Adds all that is in the rows of the area, but for the strips that painting leaves as they are.
fn add_rows(
    alloc: Global,
    strips: &[Strip],
    brush: Brush,
    draft: List<Strip>,
) -> Result<List<Strip>, NoMemory>
    requires can_paint { CanPaint strips.now brush }
    requires draft { IsDraftOf strips.now brush draft }
    requires untouched { HoldsUntouched strips.now brush draft }
    ensures draft { IfOk result (IsDraftOf strips.now brush) }
    ensures keeps { IfOk result (KeepsPoints draft) }
    ensures adds { IfOk result (HoldsRows brush.domain (rows brush.area)) }
{
    let mut new = draft;
    let mut rest = brush.area.rows();
    loop {
        let band = band_at(strips, brush, rest);
        new = add_band(alloc, strips, brush, band, new)?;
        if band.rows.high >= rest.high {
            return Ok(new);
        }
        rest = part_after(rest, band.rows);
    }
}

/// The strips once the area is painted.
pub fn painted_strips(
    alloc: Global,
    strips: &[Strip],
    brush: Brush,
) -> Result<List<Strip>, NoMemory>
    requires { CanPaint strips.now brush }
    ensures { IfOk result (AreStrips brush.domain (new_labels strips.now brush)) }
{
    let draft = outside(alloc, strips, brush)?;
    let new = add_rows(alloc, strips, brush, draft)?;
    Ok(new)
}
