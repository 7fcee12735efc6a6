ghost use Rattle.std.specs.Prelude.{◌≡◌, ◌<ℤ◌, ◌≤ℤ◌, pos, length, IfSome, IfNone, IsTrue, ◌↔◌};
ghost use Rattle.geo_rect.specs.declared.shapes.Interval.{Interval};
ghost use Rattle.geo_rect.specs.declared.shapes.Rect.{Rect};
ghost use Rattle.gerber_out.specs.Contours.{units, corner_at, contour, IsContourOf, IsFillable, HasEnds};

use geo_rect::{Interval, Rect};

/// How many units a micrometre has.
const PER_MICROMETRE: u64 = 1_000;

/// The greatest coordinate that may stand in a text, in units.
pub const MOST_UNITS: u64 = 9_999_999_000;

/// A point of a contour, in units of a millionth of a millimetre from the left and from below.
#[derive(Clone, Copy, Debug, PartialEq, Eq)]
pub struct Corner {
    pub x: u64,
    pub y: u64,
}

/// A number of micrometres that is not negative, in units.
fn units(micrometres: i32) -> u64
    requires { pos 0 ≤ℤ micrometres }
    ensures { result ≡ units micrometres }
{
    micrometres as u64 * PER_MICROMETRE
}

/// The point at these micrometres, which are not negative.
pub fn corner_at(x: i32, y: i32) -> Corner
    requires across { pos 0 ≤ℤ x }
    requires up { pos 0 ≤ℤ y }
    ensures { result ≡ corner_at x y }
{
    Corner {
        x: units(x),
        y: units(y),
    }
}

/// The corners of a rectangle, one after the other, up to the first one again.
fn contour(area: Rect) -> [Corner; 5]
    requires { IsFillable area }
    ensures { result ≡ contour area }
{
    [
        corner_at(area.x0, area.y0),
        corner_at(area.x1, area.y0),
        corner_at(area.x1, area.y1),
        corner_at(area.x0, area.y1),
        corner_at(area.x0, area.y0),
    ]
}

/// The micrometres from `first` to `last`, which are given in units.
fn span(first: u64, last: u64) -> Option<Interval>
    ensures some { IfSome result (λ i. HasEnds i first last) }
    ensures none { IfNone result ((i : Interval) → HasEnds i first last → ⊥) }
{
    if first >= last || last > MOST_UNITS {
        return None;
    }
    if first % PER_MICROMETRE != 0 || last % PER_MICROMETRE != 0 {
        return None;
    }
    Some(Interval {
        low: (first / PER_MICROMETRE) as i32,
        high: (last / PER_MICROMETRE) as i32,
    })
}

fn are_same(a: Corner, b: Corner) -> bool
    ensures { IsTrue result ↔ (a ≡ b) }
{
    if a.x != b.x {
        return false;
    }
    a.y == b.y
}

fn are_alike(points: &[Corner], expected: &[Corner]) -> bool
    requires { length points.now ≡ length expected.now }
    ensures { IsTrue result ↔ (points.now ≡ expected.now) }
{
    for (i, point) in points.iter().enumerate() {
        if !are_same(*point, expected[i]) {
            return false;
        }
    }
    true
}

/// The rectangle whose contour the points are: each corner after the one before it, from the lower
/// left one to the right, and up to the first one again.
pub fn enclosed(points: &[Corner]) -> Option<Rect>
    ensures some { IfSome result (λ r. IsContourOf points.now r) }
    ensures none { IfNone result ((r : Rect) → IsContourOf points.now r → ⊥) }
{
    if points.len() != 5 {
        return None;
    }
    let (first, third) = (points[0], points[2]);
    let Some(across) = span(first.x, third.x) else {
        return None;
    };
    let Some(up) = span(first.y, third.y) else {
        return None;
    };
    let area = Rect::of(across, up);
    if !are_alike(points, contour(area).as_slice()) {
        return None;
    }
    Some(area)
}
