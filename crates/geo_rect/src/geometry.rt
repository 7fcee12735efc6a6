//! Questions about two rectangles. Coordinates and gaps are whole micrometres.

ghost use Rattle.std.specs.Prelude.{◌≡◌, ◌↔◌, ◌^◌, ◌≤◌, pos, ◌≤ℤ◌, IsTrue, IfSome, IfNone};
ghost use Rattle.geo_rect.specs.Axis.{IsGap};
ghost use Rattle.geo_rect.specs.Plane.{IsBounded, IsTooClose, IsMeet, ShareNoPoint, IsGrown};
ghost use Rattle.geo_rect.specs.Tests.{are_too_close};
ghost use Rattle.geo_rect.specs.Distance.{IsDistance, IsReach};
ghost use Rattle.geo_rect.specs.Images.{IsClamped};
ghost use Rattle.geo_rect.specs.Edges.{IsEdge, HasNoEdge, right_band, left_band, upper_band, lower_band};

use crate::axes::{farthest, gap_between, images, just, near, overlap, widened};
use crate::shapes::{Interval, Rect};

/// The common points of `a` and `b`; `None` where there are none.
pub fn meet(a: Rect, b: Rect) -> Option<Rect>
    ensures some { IfSome result (λ r. IsMeet a b r) }
    ensures none { IfNone result (ShareNoPoint a b) }
{
    let across = overlap(a.columns(), b.columns())?;
    let up = overlap(a.rows(), b.rows())?;
    Some(Rect::of(across, up))
}

/// Whether both have the same numbers.
fn same_interval(a: Interval, b: Interval) -> bool
    ensures { IsTrue result ↔ (a ≡ b) }
{
    if a.low != b.low {
        return false;
    }
    a.high == b.high
}

/// Whether both are the same rectangle.
pub fn same_rect(a: Rect, b: Rect) -> bool
    ensures { IsTrue result ↔ (a ≡ b) }
{
    if !same_interval(a.columns(), b.columns()) {
        return false;
    }
    same_interval(a.rows(), b.rows())
}

/// The points that are too close to `b` for the gap `g`, which is from 1 to 2^25. The coordinates
/// of `b` lie between -2^25 and 2^25.
pub fn grown(b: Rect, g: i32) -> Rect
    requires bounded { IsBounded b }
    requires gap { IsGap g }
    requires some { pos 1 ≤ℤ g }
    ensures { IsGrown b g result }
{
    Rect::of(widened(b.columns(), g), widened(b.rows(), g))
}

/// Whether the separations of `a` and `b`, across and up, are both less than `s`.
pub fn too_close(a: Rect, b: Rect, s: i32) -> bool
    ensures fact { IsTrue result ↔ IsTooClose a b s }
    ensures test { result ≡ are_too_close a b s }
{
    if !near(a.columns(), b.columns(), s) {
        return false;
    }
    near(a.rows(), b.rows(), s)
}

/// The least distance from a point of `a` to a point of `b`, across and up together. All
/// coordinates lie between -2^25 and 2^25.
pub fn dist(a: Rect, b: Rect) -> u64
    requires first { IsBounded a }
    requires second { IsBounded b }
    ensures exact { IsDistance a b result }
    ensures small { result ≤ 2 ^ 27 }
{
    let across = gap_between(a.columns(), b.columns());
    let up = gap_between(a.rows(), b.rows());
    u64::from(across) + u64::from(up)
}

/// The greatest distance from `a` to a point of `b`. All coordinates lie between -2^25 and 2^25.
pub fn reach(a: Rect, b: Rect) -> u64
    requires first { IsBounded a }
    requires second { IsBounded b }
    ensures exact { IsReach a b result }
    ensures small { result ≤ 2 ^ 27 }
{
    let columns = farthest(a.columns(), b.columns());
    let rows = farthest(a.rows(), b.rows());
    u64::from(columns) + u64::from(rows)
}

/// The images of the points of `b` when each coordinate is clamped into `e`.
pub fn clamp(b: Rect, e: Rect) -> Rect
    ensures { IsClamped b e result }
{
    Rect::of(images(b.columns(), e.columns()), images(b.rows(), e.rows()))
}

/// The points of `u` that are one step from `t`, which shares no point with `u`; `None` where there
/// are none. The coordinates of `t` lie between -2^25 and 2^25.
pub fn edge(t: Rect, u: Rect) -> Option<Rect>
    requires bounded { IsBounded t }
    requires separate { ShareNoPoint t u }
    ensures some { IfSome result (λ r. IsEdge t u r) }
    ensures none { IfNone result (HasNoEdge t u) }
{
    if let Some(part) = meet(right_of(t), u) {
        return Some(part);
    }
    if let Some(part) = meet(left_of(t), u) {
        return Some(part);
    }
    if let Some(part) = meet(above(t), u) {
        return Some(part);
    }
    meet(below(t), u)
}

fn right_of(t: Rect) -> Rect
    requires { IsBounded t }
    ensures { result ≡ right_band t }
{
    Rect::of(just(t.x1 + 1), t.rows())
}

fn left_of(t: Rect) -> Rect
    requires { IsBounded t }
    ensures { result ≡ left_band t }
{
    Rect::of(just(t.x0 - 1), t.rows())
}

fn above(t: Rect) -> Rect
    requires { IsBounded t }
    ensures { result ≡ upper_band t }
{
    Rect::of(t.columns(), just(t.y1 + 1))
}

fn below(t: Rect) -> Rect
    requires { IsBounded t }
    ensures { result ≡ lower_band t }
{
    Rect::of(t.columns(), just(t.y0 - 1))
}

#[cfg(test)]
mod tests {
    use super::*;
    use std::test::Fail;

    #[test]
    fn numbers(rt: HostRuntime) -> Result<(), Fail> {
        let front = Rect::new(4, 9, 6, 11);
        let part = Rect::new(25, 16, 39, 16);
        assert_eq!(rt; clamp(front, part), Rect::new(25, 16, 25, 16));
        assert_eq!(rt; dist(front, part), 24);
        assert_eq!(rt; reach(Rect::new(4, 6, 6, 6), Rect::new(1, 6, 9, 6)), 3);
        assert_eq!(rt;
            grown(Rect::new(18, 0, 22, 14), 3),
            Rect::new(16, -2, 24, 16)
        );
        let left = Rect::new(5, 5, 7, 7);
        let right = Rect::new(9, 5, 11, 7);
        assert_eq!(rt; too_close(left, right, 2), false);
        assert_eq!(rt; too_close(left, right, 3), true);
        Ok(())
    }

    #[test]
    fn common_parts(rt: HostRuntime) -> Result<(), Fail> {
        let strip = Rect::new(2, 7, 8, 13);
        let over = Rect::new(1, 14, 15, 16);
        assert_eq!(rt; edge(strip, over), Some(Rect::new(2, 14, 8, 14)));
        assert_eq!(rt; edge(strip, Rect::new(9, 14, 15, 16)), None);
        assert_eq!(rt;
            meet(Rect::new(16, 1, 24, 16), Rect::new(25, 1, 39, 6)),
            None
        );
        Ok(())
    }
}
