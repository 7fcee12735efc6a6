ghost use Rattle.std.specs.Prelude.{◌↔◌, IsTrue};
ghost use Rattle.plane_core.specs.Choice.{Meets};
ghost use Rattle.plane_core.specs.Sides.{HaveCommon};

use geo_rect::{Interval, Rect};

/// Whether some number is in both.
pub fn have_common(i: Interval, j: Interval) -> bool
    ensures { IsTrue result ↔ HaveCommon i j }
{
    if i.low > j.high {
        return false;
    }
    if j.low > i.high {
        return false;
    }
    true
}

/// Whether some point is in both.
pub fn meets(a: Rect, b: Rect) -> bool
    ensures { IsTrue result ↔ Meets a b }
{
    if !have_common(a.columns(), b.columns()) {
        return false;
    }
    if !have_common(a.rows(), b.rows()) {
        return false;
    }
    true
}
