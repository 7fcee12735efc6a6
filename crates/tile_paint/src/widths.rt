//! The tiles in a band and right beside it that have the label are joined sideways.
ghost use Rattle.std.specs.Prelude.{◌≡◌, ◌<ℤ◌, IfOk};
ghost use Rattle.geo_rect.specs.Plane.{LiesIn};
ghost use Rattle.plane_core.specs.Labels.{IsSmall};
ghost use Rattle.stitch_walk.specs.Pieces.{HaveSameRows};
ghost use Rattle.tile_paint.specs.Changes.{HaveSameLabels};
ghost use Rattle.tile_paint.specs.States.{AreTall, IsBandJoined, IsBandOf, IsJoining, IsReadyFrom, IsWide, IsWidened, IsWidenedLeft};

use crate::corners::{ends_right, first_point, next_point, point_after, point_before};
use crate::spots::{Found, find, has_label, read, tiles_fill};
use crate::trims::fit;
use geo_rect::{Label, NoMemory, Rect};
use stitch_walk::Tiling;
use tile_cuts::join_side;

/// The band with the column left of it, if that has the label in the band's first row.
fn widened_left(t: &Tiling, band: Rect, label: Label) -> Rect
    requires inside { LiesIn band t.now.domain }
    requires small { IsSmall band }
    ensures inside { LiesIn result t.now.domain }
    ensures widened { IsWidenedLeft t.now.store band label result }
{
    if has_label(t, point_before(band), label) {
        return Rect::new(band.x0 - 1, band.y0, band.x1, band.y1);
    }
    band
}

/// The band with the columns next to it that have the label in the band's first row.
fn widened(t: &Tiling, band: Rect, label: Label) -> Rect
    requires inside { LiesIn band t.now.domain }
    requires small { IsSmall band }
    ensures inside { LiesIn result t.now.domain }
    ensures widened { IsWidened t.now.store band label result }
{
    let wide = widened_left(t, band, label);
    if has_label(t, point_after(band, first_point(band)), label) {
        return Rect::new(wide.x0, wide.y0, band.x1 + 1, wide.y1);
    }
    wide
}

/// Cuts the first tile at the band's edges: the tiles of the band are joined up to here.
fn join_first(
    t: &mut Tiling,
    area: Rect,
    band: Rect,
    label: Label,
    wide: Rect,
) -> Result<Found, NoMemory>
    requires inside { LiesIn area t.old.domain }
    requires band { IsBandOf area band }
    requires ready { IsReadyFrom t.old.store area label band.y0 }
    requires tall { AreTall t.old.store band }
    requires wide { IsWidened t.old.store band label wide }
    requires wide_inside { LiesIn wide t.old.domain }
    ensures domain { t.new.domain ≡ t.old.domain }
    ensures labels { IfOk result (λ joined. HaveSameLabels t.old.store t.new.store) }
    ensures joining { IfOk result (λ joined. IsJoining t.new.store area band label wide joined) }
{
    let first = find(t, first_point(wide));
    let joined = fit(t, first, area, band)?;
    tiles_fill(t);
    Ok(joined)
}

/// Cuts the tile right of those that are joined at the band's edges, and joins it with them.
fn join_next(
    t: &mut Tiling,
    area: Rect,
    band: Rect,
    label: Label,
    wide: Rect,
    joined: Found,
) -> Result<Found, NoMemory>
    requires inside { LiesIn area t.old.domain }
    requires band { IsBandOf area band }
    requires wide { IsWide band wide }
    requires wide_inside { LiesIn wide t.old.domain }
    requires rows { HaveSameRows wide band }
    requires joining { IsJoining t.old.store area band label wide joined }
    requires more { joined.piece.area.x1 <ℤ wide.x1 }
    ensures domain { t.new.domain ≡ t.old.domain }
    ensures labels { IfOk result (λ next. HaveSameLabels t.old.store t.new.store) }
    ensures joining { IfOk result (λ next. IsJoining t.new.store area band label wide next) }
    ensures onward { IfOk result (λ next. joined.piece.area.x1 <ℤ next.piece.area.x1) }
{
    let next = find(t, next_point(joined.piece.area, wide));
    let _fitted = fit(t, next, area, band)?;
    tiles_fill(t);
    join_side(t, joined.id);
    Ok(read(t, joined.id))
}

/// Joins the tiles of the band and those right beside it that have the label, from left to right.
/// Each is cut at the band's edges first, where it crosses them.
pub fn join_band(t: &mut Tiling, area: Rect, band: Rect, label: Label) -> Result<(), NoMemory>
    requires inside { LiesIn area t.old.domain }
    requires band { IsBandOf area band }
    requires ready { IsReadyFrom t.old.store area label band.y0 }
    requires tall { AreTall t.old.store band }
    ensures domain { t.new.domain ≡ t.old.domain }
    ensures labels { IfOk result (λ _. HaveSameLabels t.old.store t.new.store) }
    ensures joined { IfOk result (λ _. IsBandJoined t.new.store area band) }
{
    tiles_fill(t);
    let wide = widened(t, band, label);
    let mut joined = join_first(t, area, band, label, wide)?;
    while ends_right(wide, joined.piece.area) {
        joined = join_next(t, area, band, label, wide, joined)?;
    }
    tiles_fill(t);
    Ok(())
}
