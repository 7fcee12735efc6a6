//! Points and rectangles at the edges of a rectangle, and small tests of them.
ghost use Rattle.std.specs.Prelude.{◌≡◌, ◌↔◌, ◌+ℤ◌, ◌-ℤ◌, ◌≤ℤ◌, ◌<ℤ◌, pos, IsTrue};
ghost use Rattle.geo_rect.specs.Axis.{HasNumber};
ghost use Rattle.geo_rect.specs.Plane.{columns, rows, HasPoint};
ghost use Rattle.plane_core.specs.Labels.{IsSmall, IsWithinReach};
ghost use Rattle.plane_core.specs.LocalForm.{HaveSameColumns};

use geo_rect::{Label, Point, Rect};

/// The lower left corner of `r`.
pub fn first_point(r: Rect) -> Point
    ensures x { result.x ≡ r.x0 }
    ensures y { result.y ≡ r.y0 }
{
    Point { x: r.x0, y: r.y0 }
}

/// The point left of the lower left corner of `r`.
pub fn point_before(r: Rect) -> Point
    requires { IsWithinReach (columns r) }
    ensures x { result.x ≡ r.x0 -ℤ pos 1 }
    ensures y { result.y ≡ r.y0 }
{
    Point {
        x: r.x0 - 1,
        y: r.y0,
    }
}

/// The point in the row of `p` and right after the last column of `r`.
pub fn point_after(r: Rect, p: Point) -> Point
    requires { IsWithinReach (columns r) }
    ensures x { result.x ≡ r.x1 +ℤ pos 1 }
    ensures y { result.y ≡ p.y }
{
    Point {
        x: r.x1 + 1,
        y: p.y,
    }
}

/// The point in the first row of `s` and right after the last column of `r`, where `s` goes on.
pub fn next_point(r: Rect, s: Rect) -> Point
    requires { r.x1 <ℤ s.x1 }
    ensures x { result.x ≡ r.x1 +ℤ pos 1 }
    ensures y { result.y ≡ s.y0 }
{
    Point {
        x: r.x1 + 1,
        y: s.y0,
    }
}

/// The point above the upper left corner of `r`.
pub fn point_above(r: Rect) -> Point
    requires { IsSmall r }
    ensures x { result.x ≡ r.x0 }
    ensures y { result.y ≡ r.y1 +ℤ pos 1 }
{
    Point {
        x: r.x0,
        y: r.y1 + 1,
    }
}

/// The point below `p`, a point of `r`.
pub fn point_below(r: Rect, p: Point) -> Point
    requires small { IsSmall r }
    requires point { HasPoint r p }
    ensures x { result.x ≡ p.x }
    ensures y { result.y ≡ p.y -ℤ pos 1 }
{
    Point { x: p.x, y: p.y - 1 }
}

/// The row after the last one of `r`, where `s` goes on.
pub fn row_past(r: Rect, s: Rect) -> i32
    requires { r.y1 <ℤ s.y1 }
    ensures { result ≡ r.y1 +ℤ pos 1 }
{
    r.y1 + 1
}

/// The column after the last one of `r`, where `s` goes on.
pub fn column_past(r: Rect, s: Rect) -> i32
    requires { r.x1 <ℤ s.x1 }
    ensures { result ≡ r.x1 +ℤ pos 1 }
{
    r.x1 + 1
}

/// The row of one micrometre above `r`, in its columns.
pub fn row_above(r: Rect) -> Rect
    requires { IsSmall r }
    ensures left { result.x0 ≡ r.x0 }
    ensures right { result.x1 ≡ r.x1 }
    ensures low { result.y0 ≡ r.y1 +ℤ pos 1 }
    ensures high { result.y1 ≡ r.y1 +ℤ pos 1 }
{
    Rect::new(r.x0, r.y1 + 1, r.x1, r.y1 + 1)
}

/// Whether the row of the point is one of the rows of `r`.
pub fn has_row(r: Rect, p: Point) -> bool
    ensures { IsTrue result ↔ HasNumber (rows r) p.y }
{
    if p.y < r.y0 {
        return false;
    }
    if p.y > r.y1 {
        return false;
    }
    true
}

/// Whether the column of the point is one of the columns of `r`.
fn has_column(r: Rect, p: Point) -> bool
    ensures { IsTrue result ↔ HasNumber (columns r) p.x }
{
    if p.x < r.x0 {
        return false;
    }
    if p.x > r.x1 {
        return false;
    }
    true
}

/// Whether `r` has the point.
pub fn has_point(r: Rect, p: Point) -> bool
    ensures { IsTrue result ↔ HasPoint r p }
{
    if !has_column(r, p) {
        return false;
    }
    if !has_row(r, p) {
        return false;
    }
    true
}

/// Whether `r` begins below the row of `s`.
pub fn begins_below(r: Rect, s: Rect) -> bool
    ensures { IsTrue result ↔ (r.y0 <ℤ s.y0) }
{
    r.y0 < s.y0
}

/// Whether `r` ends above `s`.
pub fn ends_above(r: Rect, s: Rect) -> bool
    ensures { IsTrue result ↔ (s.y1 <ℤ r.y1) }
{
    s.y1 < r.y1
}

/// Whether `r` begins left of `s`.
pub fn begins_left(r: Rect, s: Rect) -> bool
    ensures { IsTrue result ↔ (r.x0 <ℤ s.x0) }
{
    r.x0 < s.x0
}

/// Whether `r` ends right of `s`.
pub fn ends_right(r: Rect, s: Rect) -> bool
    ensures { IsTrue result ↔ (s.x1 <ℤ r.x1) }
{
    s.x1 < r.x1
}

/// Whether `r` begins in the row of the point.
pub fn begins_at(r: Rect, p: Point) -> bool
    ensures { IsTrue result ↔ (r.y0 ≡ p.y) }
{
    r.y0 == p.y
}

/// Whether two rectangles have the same columns.
pub fn have_same_columns(r: Rect, s: Rect) -> bool
    ensures { IsTrue result ↔ HaveSameColumns r s }
{
    if r.x0 != s.x0 {
        return false;
    }
    if r.x1 != s.x1 {
        return false;
    }
    true
}

/// Whether two labels are the same.
pub fn are_same_label(a: Label, b: Label) -> bool
    ensures { IsTrue result ↔ (a ≡ b) }
{
    a == b
}
