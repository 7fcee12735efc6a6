//! The area is gone through band by band, upwards. A band is the rows between two neighbouring edges
//! of the tiles that meet or touch the area.
ghost use Rattle.std.specs.Prelude.{◌≡◌, ◌↔◌, ◌+ℤ◌, ◌≤ℤ◌, ◌<ℤ◌, pos, IfOk, IsTrue};
ghost use Rattle.geo_rect.specs.Axis.{HasNumber};
ghost use Rattle.geo_rect.specs.Plane.{rows, LiesIn};
ghost use Rattle.plane_core.specs.Labels.{IsSmall};
ghost use Rattle.tile_paint.specs.Changes.{HaveSameLabels, IsUpTo};
ghost use Rattle.tile_paint.specs.States.{AreTall, IsBandOf, IsCapped, IsReadyFrom};

use crate::corners::{first_point, has_row, point_above, point_after, point_before};
use crate::ledges::join_row;
use crate::spots::{look, tiles_fill};
use crate::widths::join_band;
use geo_rect::{Label, NoMemory, Point, Rect};
use stitch_walk::Tiling;

/// Whether the point is in a column of `r` or right of it by one at most.
fn is_near(r: Rect, p: Point) -> bool
    requires { IsSmall r }
    ensures { IsTrue result ↔ (p.x ≤ℤ (r.x1 +ℤ pos 1)) }
{
    p.x <= r.x1 + 1
}

/// What of `r` lies in the row of the point, one of its rows, and above.
fn rest_from(r: Rect, p: Point) -> Rect
    requires { HasNumber (rows r) p.y }
    ensures left { result.x0 ≡ r.x0 }
    ensures right { result.x1 ≡ r.x1 }
    ensures low { result.y0 ≡ p.y }
    ensures high { result.y1 ≡ r.y1 }
{
    Rect::new(r.x0, p.y, r.x1, r.y1)
}

/// The rows of the band up to where `r` ends, which has the first of them.
fn up_to(band: Rect, r: Rect) -> Rect
    requires { HasNumber (rows r) band.y0 }
    ensures { IsUpTo r.y1 band result }
{
    Rect::new(band.x0, band.y0, band.x1, band.y1.min(r.y1))
}

/// The rows of the band up to where the tile ends that has the point, one in the band's first row.
fn capped(t: &Tiling, band: Rect, p: Point) -> Rect
    requires { p.y ≡ band.y0 }
    ensures { IsCapped t.now.store band p result }
{
    let Some(found) = look(t, p) else {
        return band;
    };
    up_to(band, found.piece.area)
}

/// The band of the area whose first row is that of the point: up to the first row in which one of the
/// tiles ends that meet or touch the area in that row.
fn first_band(t: &Tiling, area: Rect, at: Point) -> Rect
    requires inside { LiesIn area t.now.domain }
    requires row { HasNumber (rows area) at.y }
    ensures first { result.y0 ≡ at.y }
    ensures band { IsBandOf area result }
    ensures tall { AreTall t.now.store result }
    ensures small { IsSmall result }
{
    tiles_fill(t);
    let rest = rest_from(area, at);
    let mut band = capped(t, rest, point_before(rest));
    let mut next = first_point(rest);
    while is_near(area, next) {
        let Some(found) = look(t, next) else {
            return band;
        };
        band = up_to(band, found.piece.area);
        next = point_after(found.piece.area, next);
    }
    band
}

/// Joins the tiles of the band that begins in the row of the point, sideways and with those below
/// them, and gives a point in the row above the band.
fn join_next_band(t: &mut Tiling, area: Rect, label: Label, at: Point) -> Result<Point, NoMemory>
    requires inside { LiesIn area t.old.domain }
    requires row { HasNumber (rows area) at.y }
    requires ready { IsReadyFrom t.old.store area label at.y }
    ensures domain { t.new.domain ≡ t.old.domain }
    ensures labels { IfOk result (λ _. HaveSameLabels t.old.store t.new.store) }
    ensures onward { IfOk result (λ next. at.y <ℤ next.y) }
    ensures within { IfOk result (λ next. next.y ≤ℤ (area.y1 +ℤ pos 1)) }
    ensures ready { IfOk result (λ next. IsReadyFrom t.new.store area label next.y) }
{
    let band = first_band(t, area, at);
    join_band(t, area, band, label)?;
    join_row(t, band);
    tiles_fill(t);
    Ok(point_above(band))
}

/// Joins the tiles of all bands of the area, from its first row upwards.
pub fn join_bands(t: &mut Tiling, area: Rect, label: Label) -> Result<(), NoMemory>
    requires inside { LiesIn area t.old.domain }
    requires ready { IsReadyFrom t.old.store area label area.y0 }
    ensures domain { t.new.domain ≡ t.old.domain }
    ensures labels { IfOk result (λ _. HaveSameLabels t.old.store t.new.store) }
    ensures ready { IfOk result (λ _. IsReadyFrom t.new.store area label (area.y1 +ℤ pos 1)) }
{
    let mut at = first_point(area);
    while has_row(area, at) {
        at = join_next_band(t, area, label, at)?;
    }
    Ok(())
}
