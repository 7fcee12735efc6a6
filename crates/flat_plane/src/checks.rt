//! Small tests of rectangles and strips.
ghost use Rattle.std.specs.Prelude.{◌≡◌, ◌↔◌, ◌+ℤ◌, ◌≤ℤ◌, pos, IsTrue};
ghost use Rattle.geo_rect.specs.Axis.{HasNumber};
ghost use Rattle.geo_rect.specs.Plane.{columns, rows, HasPoint};
ghost use Rattle.plane_core.specs.LocalForm.{HaveSameColumns};
ghost use Rattle.plane_core.specs.Strips.{Precedes};
ghost use Rattle.flat_plane.specs.Draft.{IsAffected, Joins, Touch};

use geo_rect::{Interval, Label, Point, Rect};
use plane_core::{Strip, have_common};

/// Whether the point lies in the columns of `r`.
fn has_column(r: Rect, p: Point) -> bool
    ensures { IsTrue result ↔ HasNumber (columns r) p.x }
{
    if p.x < r.x0 {
        return false;
    }
    if p.x > r.x1 {
        return false;
    }
    true
}

/// Whether the point lies in the rows of `r`.
fn has_row(r: Rect, p: Point) -> bool
    ensures { IsTrue result ↔ HasNumber (rows r) p.y }
{
    if p.y < r.y0 {
        return false;
    }
    if p.y > r.y1 {
        return false;
    }
    true
}

/// Whether `r` has the point.
pub fn has_point(r: Rect, p: Point) -> bool
    ensures { IsTrue result ↔ HasPoint r p }
{
    if !has_column(r, p) {
        return false;
    }
    if !has_row(r, p) {
        return false;
    }
    true
}

/// Whether `j` starts at the latest right after the end of `i`.
fn reaches(i: Interval, j: Interval) -> bool
    ensures { IsTrue result ↔ (j.low ≤ℤ (i.high +ℤ pos 1)) }
{
    if j.low <= i.high {
        return true;
    }
    if j.low - 1 > i.high {
        return false;
    }
    true
}

/// Whether no number lies between the intervals.
fn touch(i: Interval, j: Interval) -> bool
    ensures { IsTrue result ↔ Touch i j }
{
    if !reaches(i, j) {
        return false;
    }
    if !reaches(j, i) {
        return false;
    }
    true
}

pub fn are_same_label(a: Label, b: Label) -> bool
    ensures { IsTrue result ↔ (a ≡ b) }
{
    a == b
}

fn have_same_columns(a: Rect, b: Rect) -> bool
    ensures { IsTrue result ↔ HaveSameColumns a b }
{
    if a.x0 != b.x0 {
        return false;
    }
    if a.x1 != b.x1 {
        return false;
    }
    true
}

/// Whether the strips can be joined to one.
pub fn can_join(s: Strip, t: Strip) -> bool
    ensures { IsTrue result ↔ Joins s t }
{
    if !are_same_label(s.label, t.label) {
        return false;
    }
    if !have_same_columns(s.area, t.area) {
        return false;
    }
    if !touch(s.area.rows(), t.area.rows()) {
        return false;
    }
    true
}

/// Whether `s` comes before `t` in a list of strips.
pub fn precedes(s: Strip, t: Strip) -> bool
    ensures { IsTrue result ↔ Precedes s t }
{
    if s.area.y0 > t.area.y0 {
        return false;
    }
    if s.area.y0 < t.area.y0 {
        return true;
    }
    if s.area.x0 >= t.area.x0 {
        return false;
    }
    true
}

/// Whether painting `area` can change the strip.
pub fn is_affected(area: Rect, s: Rect) -> bool
    ensures { IsTrue result ↔ IsAffected area s }
{
    if !touch(area.columns(), s.columns()) {
        return false;
    }
    if !have_common(area.rows(), s.rows()) {
        return false;
    }
    true
}
