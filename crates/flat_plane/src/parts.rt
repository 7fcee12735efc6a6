//! Parts of intervals and strips.
ghost use Rattle.std.specs.Prelude.{◌≡◌, ◌<ℤ◌, ◌≤ℤ◌, ◌+ℤ◌, ◌-ℤ◌, pos};
ghost use Rattle.geo_rect.specs.Plane.{columns, rect_of};
ghost use Rattle.flat_plane.specs.Painting.{IsPartAfter, IsPartBefore};

use geo_rect::{Interval, Label, Rect};
use plane_core::Strip;

/// The numbers of `i` that come before those of `j`.
pub fn part_before(i: Interval, j: Interval) -> Interval
    requires { i.low <ℤ j.low }
    ensures { IsPartBefore i j result }
{
    Interval {
        low: i.low,
        high: i.high.min(j.low - 1),
    }
}

/// The numbers of `i` that come after those of `j`.
pub fn part_after(i: Interval, j: Interval) -> Interval
    requires { j.high <ℤ i.high }
    ensures { IsPartAfter i j result }
{
    Interval {
        low: i.low.max(j.high + 1),
        high: i.high,
    }
}

/// The strip with other rows.
pub fn with_rows(strip: Strip, rows: Interval) -> Strip
    ensures { result ≡ record { area = rect_of (columns strip.area) rows; label = strip.label } }
{
    Strip {
        area: Rect::of(strip.area.columns(), rows),
        label: strip.label,
    }
}

/// The strip of these columns, rows and label.
pub fn strip_of(across: Interval, up: Interval, label: Label) -> Strip
    ensures { result ≡ record { area = rect_of across up; label = label } }
{
    Strip {
        area: Rect::of(across, up),
        label,
    }
}
