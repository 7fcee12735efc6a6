//! A tile is joined with the one below it where both have one label and the same columns.
ghost use Rattle.std.specs.Prelude.{◌≡◌, ◌↔◌, IsTrue};
ghost use Rattle.geo_rect.specs.Plane.{columns};
ghost use Rattle.plane_core.specs.Labels.{IsWithinReach};
ghost use Rattle.tile_paint.specs.Changes.{AreAlike, AreJoinedAt, HasNoLedgeAt, IsFreeOfLedges};

use crate::corners::{
    are_same_label, begins_at, first_point, have_same_columns, point_after, point_before,
    point_below,
};
use crate::spots::look;
use geo_rect::{Point, Rect};
use plane_core::Strip;
use stitch_walk::Tiling;
use tile_cuts::join_up;

/// Whether two tiles have one label and the same columns.
fn are_alike(lower: Strip, upper: Strip) -> bool
    ensures { IsTrue result ↔ AreAlike lower upper }
{
    if !are_same_label(lower.label, upper.label) {
        return false;
    }
    have_same_columns(lower.area, upper.area)
}

/// Joins the tile that has the point with the one below it, if it begins in the row of the point and
/// they have one label and the same columns.
fn join_below(t: &mut Tiling, p: Point)
    ensures domain { t.new.domain ≡ t.old.domain }
    ensures joined { AreJoinedAt t.old.store t.new.store p.y }
    ensures gone { HasNoLedgeAt t.new.store p.x p.y }
{
    let Some(upper) = look(t, p) else {
        return;
    };
    if !begins_at(upper.piece.area, p) {
        return;
    }
    let Some(lower) = look(t, point_below(upper.piece.area, p)) else {
        return;
    };
    if are_alike(lower.piece, upper.piece) {
        join_up(t, lower.id);
    }
}

/// Joins the tiles that begin in the first row of the band, or right beside it, with those below
/// them: of these only the one in the band's first column and the two beside the band can be joined.
pub fn join_row(t: &mut Tiling, row: Rect)
    requires { IsWithinReach (columns row) }
    ensures domain { t.new.domain ≡ t.old.domain }
    ensures joined { AreJoinedAt t.old.store t.new.store row.y0 }
    ensures free { IsFreeOfLedges t.new.store row }
{
    join_below(t, point_before(row));
    join_below(t, first_point(row));
    join_below(t, point_after(row, first_point(row)));
}
