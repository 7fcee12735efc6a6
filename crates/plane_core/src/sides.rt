ghost use Rattle.std.specs.Prelude.{◌≡◌, ◌↔◌, ◌-ℤ◌, pos, IsTrue};
ghost use Rattle.geo_rect.specs.Axis.{HasNumber};
ghost use Rattle.plane_core.specs.Labels.{IsSmall, IsWithinReach};
ghost use Rattle.plane_core.specs.Sides.{mirrored, turned, IsLeftOf, IsBeside};

use crate::overlaps::have_common;
use geo_rect::{Interval, Rect};

/// A side of a rectangle.
#[derive(Clone, Copy, Debug, PartialEq, Eq)]
pub enum Side {
    Left,
    Below,
    Right,
    Above,
}

impl Side {
    /// Where a rectangle comes to lie when the plane is turned so that this side is the left one.
    pub fn turn(self, r: Rect) -> Rect
        requires { IsSmall r }
        ensures { result ≡ turned self r }
    {
        match self {
            Side::Left => r,
            Side::Below => Rect::of(r.rows(), r.columns()),
            Side::Right => Rect::of(mirror(r.columns()), mirror(r.rows())),
            Side::Above => Rect::of(mirror(r.rows()), mirror(r.columns())),
        }
    }

    /// Whether `s` has a point one step past the edge of `t` on this side.
    pub fn is_beside(self, t: Rect, s: Rect) -> bool
        requires first { IsSmall t }
        requires second { IsSmall s }
        ensures { IsTrue result ↔ IsBeside self t s }
    {
        is_left_of(self.turn(s), self.turn(t))
    }
}

fn mirror(i: Interval) -> Interval
    requires { IsWithinReach i }
    ensures { result ≡ mirrored i }
{
    Interval {
        low: -i.high,
        high: -i.low,
    }
}

fn is_left_of(s: Rect, t: Rect) -> bool
    ensures { IsTrue result ↔ IsLeftOf s t }
{
    if !is_just_before(s.columns(), t.columns()) {
        return false;
    }
    if !have_common(s.rows(), t.rows()) {
        return false;
    }
    true
}

/// Whether `i` has the number right before `j`.
fn is_just_before(i: Interval, j: Interval) -> bool
    ensures { IsTrue result ↔ HasNumber i (j.low -ℤ pos 1) }
{
    if i.low >= j.low {
        return false;
    }
    if j.low - 1 > i.high {
        return false;
    }
    true
}
