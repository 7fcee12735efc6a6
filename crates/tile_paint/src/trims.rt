//! A tile is cut at the edges of a band or of the area, and the part that is wanted is found.
ghost use Rattle.std.specs.Prelude.{◌≡◌, ◌≤ℤ◌, IfOk};
ghost use Rattle.geo_rect.specs.Axis.{LiesWithin};
ghost use Rattle.geo_rect.specs.Plane.{rows, IsMeet};
ghost use Rattle.plane_core.specs.Choice.{Meets};
ghost use Rattle.stitch_walk.specs.Pieces.{IsPiece};
ghost use Rattle.tile_paint.specs.Changes.{IsNarrowed, IsFrom, IsUpTo, IsRightFrom, IsLeftUpTo, IsFitted};
ghost use Rattle.tile_paint.specs.States.{Touches, IsOpenFrom, IsBandOf};

use crate::corners::{begins_below, begins_left, column_past, ends_above, ends_right, row_past};
use crate::spots::{Found, read};
use geo_rect::{NoMemory, Rect};
use stitch_walk::Tiling;
use tile_cuts::{cut_col, cut_row};

/// Cuts off what of the tile lies below the band, and gives the rest.
fn cut_below(t: &mut Tiling, found: Found, area: Rect, band: Rect) -> Result<Found, NoMemory>
    requires piece { IsPiece t.old.store found.id found.piece }
    requires band { IsBandOf area band }
    requires touches { Touches area found.piece.area }
    requires reaches { band.y0 ≤ℤ found.piece.area.y1 }
    requires open_from { IsOpenFrom t.old.store area band.y0 }
    ensures domain { t.new.domain ≡ t.old.domain }
    ensures open_from { IfOk result (λ rest. IsOpenFrom t.new.store area band.y0) }
    ensures narrowed { IfOk result (λ rest. IsNarrowed t.old.store t.new.store found rest) }
    ensures rest { IfOk result (λ rest. IsFrom band.y0 found.piece.area rest.piece.area) }
{
    if !begins_below(found.piece.area, band) {
        return Ok(found);
    }
    t.reserve(1)?;
    let upper = cut_row(t, found.id, band.y0);
    Ok(read(t, upper))
}

/// Cuts off what of the tile lies above the band, and gives the rest.
fn cut_above(t: &mut Tiling, found: Found, area: Rect, band: Rect) -> Result<Found, NoMemory>
    requires piece { IsPiece t.old.store found.id found.piece }
    requires band { IsBandOf area band }
    requires touches { Touches area found.piece.area }
    requires reaches { found.piece.area.y0 ≤ℤ band.y1 }
    requires open_from { IsOpenFrom t.old.store area band.y0 }
    ensures domain { t.new.domain ≡ t.old.domain }
    ensures open_from { IfOk result (λ rest. IsOpenFrom t.new.store area band.y0) }
    ensures narrowed { IfOk result (λ rest. IsNarrowed t.old.store t.new.store found rest) }
    ensures rest { IfOk result (λ rest. IsUpTo band.y1 found.piece.area rest.piece.area) }
{
    if !ends_above(found.piece.area, band) {
        return Ok(found);
    }
    t.reserve(1)?;
    let row = row_past(band, found.piece.area);
    let _upper = cut_row(t, found.id, row);
    Ok(read(t, found.id))
}

/// Cuts off what of the tile lies left of the area, and gives the rest.
fn cut_left(t: &mut Tiling, found: Found, area: Rect) -> Result<Found, NoMemory>
    requires piece { IsPiece t.old.store found.id found.piece }
    requires inside { LiesWithin (rows found.piece.area) (rows area) }
    requires reaches { area.x0 ≤ℤ found.piece.area.x1 }
    requires begins { found.piece.area.x0 ≤ℤ area.x1 }
    requires open_from { IsOpenFrom t.old.store area area.y0 }
    ensures domain { t.new.domain ≡ t.old.domain }
    ensures open_from { IfOk result (λ rest. IsOpenFrom t.new.store area area.y0) }
    ensures narrowed { IfOk result (λ rest. IsNarrowed t.old.store t.new.store found rest) }
    ensures rest { IfOk result (λ rest. IsRightFrom area.x0 found.piece.area rest.piece.area) }
{
    if !begins_left(found.piece.area, area) {
        return Ok(found);
    }
    t.reserve(1)?;
    let right = cut_col(t, found.id, area.x0);
    Ok(read(t, right))
}

/// Cuts off what of the tile lies right of the area, and gives the rest.
fn cut_right(t: &mut Tiling, found: Found, area: Rect) -> Result<Found, NoMemory>
    requires piece { IsPiece t.old.store found.id found.piece }
    requires inside { LiesWithin (rows found.piece.area) (rows area) }
    requires reaches { area.x0 ≤ℤ found.piece.area.x1 }
    requires begins { found.piece.area.x0 ≤ℤ area.x1 }
    requires open_from { IsOpenFrom t.old.store area area.y0 }
    ensures domain { t.new.domain ≡ t.old.domain }
    ensures open_from { IfOk result (λ rest. IsOpenFrom t.new.store area area.y0) }
    ensures narrowed { IfOk result (λ rest. IsNarrowed t.old.store t.new.store found rest) }
    ensures rest { IfOk result (λ rest. IsLeftUpTo area.x1 found.piece.area rest.piece.area) }
{
    if !ends_right(found.piece.area, area) {
        return Ok(found);
    }
    t.reserve(1)?;
    let column = column_past(area, found.piece.area);
    let _right = cut_col(t, found.id, column);
    Ok(read(t, found.id))
}

/// Cuts a tile that has rows of the band at the band's edges, where it crosses them, and gives the
/// part in the band.
pub fn fit(t: &mut Tiling, found: Found, area: Rect, band: Rect) -> Result<Found, NoMemory>
    requires piece { IsPiece t.old.store found.id found.piece }
    requires band { IsBandOf area band }
    requires touches { Touches area found.piece.area }
    requires reaches { band.y0 ≤ℤ found.piece.area.y1 }
    requires begins { found.piece.area.y0 ≤ℤ band.y1 }
    requires open_from { IsOpenFrom t.old.store area band.y0 }
    ensures domain { t.new.domain ≡ t.old.domain }
    ensures open_from { IfOk result (λ rest. IsOpenFrom t.new.store area band.y0) }
    ensures narrowed { IfOk result (λ rest. IsNarrowed t.old.store t.new.store found rest) }
    ensures rest { IfOk result (λ rest. IsFitted band found.piece.area rest.piece.area) }
{
    let upper = cut_below(t, found, area, band)?;
    cut_above(t, upper, area, band)
}

/// Cuts a tile that meets the area at the area's edges, where it crosses them, and gives the part in
/// the area.
pub fn crop(t: &mut Tiling, found: Found, area: Rect) -> Result<Found, NoMemory>
    requires piece { IsPiece t.old.store found.id found.piece }
    requires meets { Meets found.piece.area area }
    requires open_from { IsOpenFrom t.old.store area area.y0 }
    ensures domain { t.new.domain ≡ t.old.domain }
    ensures open_from { IfOk result (λ rest. IsOpenFrom t.new.store area area.y0) }
    ensures narrowed { IfOk result (λ rest. IsNarrowed t.old.store t.new.store found rest) }
    ensures rest { IfOk result (λ rest. IsMeet found.piece.area area rest.piece.area) }
{
    let level = fit(t, found, area, area)?;
    let right = cut_left(t, level, area)?;
    cut_right(t, right, area)
}
