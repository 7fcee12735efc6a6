ghost use Rattle.std.specs.Prelude.{◌≡◌, ◌+◌, ◌<◌, ◌≤◌};
ghost use Rattle.plane_core.specs.Labels.{IsSmall};
ghost use Rattle.plane_core.specs.declared.strips.Strip.{Strip};
ghost use Rattle.stitch_walk.specs.Links.{LeadsTo, stitch_point};
ghost use Rattle.stitch_walk.specs.Pieces.{IsPiece, IsCut, AreStacked, AreInLine, CanCutAtRow, CanCutAtColumn};
ghost use Rattle.stitch_walk.specs.Reaches.{IsPast};
ghost use Rattle.tile_cuts.specs.Parts.{IsCutInto, IsReplaced};

use crate::mending::relink;
use crate::parts::{split_columns, split_rows};
use crate::reads::{go_across, read};
use crate::stitches::stitch_point;
use geo_rect::Rect;
use plane_core::Side;
use stitch_walk::{Tiling, has_point};
use tile_store::{Tile, TileId};

/// A tile in two parts at a row or a column: the first keeps its number and gets another stitch where it
/// now ends (`$end`), the second gets another where it begins (`$start`) and one to the first (`$inner`).
macro_rules! cut {
    ($t:ident, $id:ident, $at:ident, $split:ident, $end:ident, $end_side:expr, $start:ident, $start_side:expr, $inner:ident) => {{
        let whole = read(&$t.store, $id);
        let parts = $split(whole.area, $at);
        let first = Tile {
            area: parts.first,
            $end: stitch_across($t, $id, $end_side, parts.first),
            ..whole
        };
        let second = Tile {
            area: parts.second,
            $start: stitch_across($t, $id, $start_side, parts.second),
            $inner: Some($id),
            ..whole
        };
        replace($t, $id, first, second)
    }};
}

/// Cuts a tile so that a new one begins at row `y`, and gives the new one's number. The lower part
/// stays under `id`. It takes no memory: there has to be a place.
pub fn cut_row(t: &mut Tiling, id: TileId, y: i32) -> TileId
    requires crosses { CanCutAtRow t.old.store id y }
    requires room { 0 < t.old.store.spare }
    ensures cut { IsCut AreStacked t.old.store t.new.store id result }
    ensures begins { (p : Strip) → IsPiece t.new.store result p → p.area.y0 ≡ y }
    ensures domain { t.new.domain ≡ t.old.domain }
    ensures spare { t.old.store.spare ≤ t.new.store.spare + 1 }
{
    cut!(t, id, y, split_rows, tr, Side::Right, bl, Side::Left, lb)
}

/// Cuts a tile so that a new one begins at column `x`, and gives the new one's number. The left part
/// stays under `id`. It takes no memory: there has to be a place.
pub fn cut_col(t: &mut Tiling, id: TileId, x: i32) -> TileId
    requires crosses { CanCutAtColumn t.old.store id x }
    requires room { 0 < t.old.store.spare }
    ensures cut { IsCut AreInLine t.old.store t.new.store id result }
    ensures begins { (p : Strip) → IsPiece t.new.store result p → p.area.x0 ≡ x }
    ensures domain { t.new.domain ≡ t.old.domain }
    ensures spare { t.old.store.spare ≤ t.new.store.spare + 1 }
{
    cut!(
        t,
        id,
        x,
        split_columns,
        rt,
        Side::Above,
        lb,
        Side::Below,
        bl
    )
}

/// The stitch that a part of the tile under `id` has on a side where the tile ends too.
fn stitch_across(t: &Tiling, id: TileId, side: Side, part: Rect) -> Option<TileId>
    requires small { IsSmall part }
    requires past { IsPast t.now.store side (stitch_point side part) id }
    ensures { LeadsTo t.now.store t.now.domain (stitch_point side part) result }
{
    let p = stitch_point(side, part);
    if has_point(t.domain, p) {
        return Some(go_across(t, id, side, p));
    }
    None
}

/// Puts two tiles in the place of the one under `id`, and gives the number of the second. Their stitches
/// lead where they should in the tiling as it is; that of the first into the second is mended with those
/// of the neighbours.
fn replace(t: &mut Tiling, id: TileId, first: Tile, second: Tile) -> TileId
    requires ready { IsCutInto t.old id first second }
    requires room { 0 < t.old.store.spare }
    ensures replaced { IsReplaced t.old.store t.new.store id result (record { area = first.area; label = first.label }) (record { area = second.area; label = second.label }) }
    ensures domain { t.new.domain ≡ t.old.domain }
    ensures spare { t.old.store.spare ≤ t.new.store.spare + 1 }
{
    t.store.write(id, first);
    let other = t.store.put(second);
    relink(&mut t.store, other, second.area);
    other
}
