//! The bands of rows that the painted area is cut into.
ghost use Rattle.std.specs.Prelude.{◌≡◌, ◌-ℤ◌, ◌+ℤ◌, ◌≤ℤ◌, pos, Contains};
ghost use Rattle.geo_rect.specs.Axis.{LiesWithin};
ghost use Rattle.geo_rect.specs.Plane.{rows, HasPoint};
ghost use Rattle.plane_core.specs.Labels.{IsPlane, IsWithinReach};
ghost use Rattle.plane_core.specs.Strips.{IsHeld};
ghost use Rattle.flat_plane.specs.Painting.{CanPaint, EndsFrom, IsBand, IsCapped, IsLeftEnd, IsRightEnd, IsStripAt, StartsBy, StartsIn};

use crate::brushes::{Band, Brush};
use crate::checks::{are_same_label, has_point};
use geo_rect::{Interval, Label, Point, Rect};
use plane_core::Strip;

/// The strip that has the point: one of them has.
pub fn find(strips: &[Strip], p: Point) -> Strip
    requires { IsHeld strips.now p }
    ensures listed { Contains strips.now result }
    ensures has_point { HasPoint result.area p }
{
    for strip in strips {
        if has_point(strip.area, p) {
            return *strip;
        }
    }
    unreachable!()
}

/// The strip at the point, if the domain has the point.
fn strip_at(strips: &[Strip], domain: Rect, p: Point) -> Option<Strip>
    requires { IsPlane domain strips.now }
    ensures { IsStripAt strips.now domain p result }
{
    if !has_point(domain, p) {
        return None;
    }
    Some(find(strips, p))
}

/// The rows up to where the strip ends.
fn capped(band: Interval, beyond: Option<Strip>) -> Interval
    requires { StartsIn band.low beyond }
    ensures low { result.low ≡ band.low }
    ensures high { result.high ≤ℤ band.high }
    ensures capped { IsCapped result beyond }
{
    let Some(strip) = beyond else {
        return band;
    };
    Interval {
        low: band.low,
        high: band.high.min(strip.area.y1),
    }
}

/// The columns, with those of the strip to the left if it has the label.
fn grown_left(across: Interval, label: Label, left: Option<Strip>) -> Interval
    requires { StartsBy across.low left }
    ensures low { IsLeftEnd across.low label left result.low }
    ensures high { result.high ≡ across.high }
{
    let Some(strip) = left else {
        return across;
    };
    if !are_same_label(strip.label, label) {
        return across;
    }
    Interval {
        low: strip.area.x0,
        high: across.high,
    }
}

/// The columns, with those of the strip to the right if it has the label.
fn grown_right(across: Interval, label: Label, right: Option<Strip>) -> Interval
    requires { EndsFrom across.high right }
    ensures low { result.low ≡ across.low }
    ensures high { IsRightEnd across.high label right result.high }
{
    let Some(strip) = right else {
        return across;
    };
    if !are_same_label(strip.label, label) {
        return across;
    }
    Interval {
        low: across.low,
        high: strip.area.x1,
    }
}

/// The point right before the columns, in the lowest of the rows.
fn point_before(across: Interval, band: Interval) -> Point
    requires { IsWithinReach across }
    ensures x { result.x ≡ across.low -ℤ pos 1 }
    ensures y { result.y ≡ band.low }
{
    Point {
        x: across.low - 1,
        y: band.low,
    }
}

/// The point right after the columns, in the lowest of the rows.
fn point_after(across: Interval, band: Interval) -> Point
    requires { IsWithinReach across }
    ensures x { result.x ≡ across.high +ℤ pos 1 }
    ensures y { result.y ≡ band.low }
{
    Point {
        x: across.high + 1,
        y: band.low,
    }
}

/// The band at the foot of the rows that are left.
pub fn band_at(strips: &[Strip], brush: Brush, rest: Interval) -> Band
    requires can_paint { CanPaint strips.now brush }
    requires inside { LiesWithin rest (rows brush.area) }
    ensures low { result.rows.low ≡ rest.low }
    ensures high { result.rows.high ≤ℤ rest.high }
    ensures band { IsBand strips.now brush result }
{
    let columns = brush.area.columns();
    let left = strip_at(strips, brush.domain, point_before(columns, rest));
    let right = strip_at(strips, brush.domain, point_after(columns, rest));
    let across = grown_left(columns, brush.label, left);
    Band {
        rows: capped(capped(rest, left), right),
        across: grown_right(across, brush.label, right),
        left,
        right,
    }
}
