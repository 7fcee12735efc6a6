//! The stitches that should lead into a tile are mended.
ghost use Rattle.std.specs.Prelude.{◌≤◌};
ghost use Rattle.geo_rect.specs.declared.shapes.Rect.{Rect as Area};
ghost use Rattle.plane_core.specs.declared.sides.Side.{Side as Edge};
ghost use Rattle.stitch_walk.specs.Reaches.{opposite};
ghost use Rattle.tile_cuts.specs.Mending.{IsLinkedBut, IsMended, AllName};

use crate::reads::read;
use crate::stitches::{faces, facing, onward};
use geo_rect::Rect;
use plane_core::Side;
use stitch_walk::stitch;
use tile_store::{TileId, TileStore};

/// Lets all stitches that should lead to the tile under `id`, which has this area, name it.
pub fn relink(store: &mut TileStore, id: TileId, area: Rect)
    requires { (domain : Area) × IsLinkedBut store.old domain id area }
    ensures mended { IsMended store.old store.new id area }
    ensures named { (side : Edge) → AllName store.new id area side }
    ensures spare { store.old.spare ≤ store.new.spare }
{
    relink_side(store, id, area, Side::Left);
    relink_side(store, id, area, Side::Below);
    relink_side(store, id, area, Side::Right);
    relink_side(store, id, area, Side::Above);
}

/// The same for the tiles on one side, which have these stitches on the other side: from the tile that
/// the stitch on this side names, each by its next stitch, while they face the tile under `id`.
fn relink_side(store: &mut TileStore, id: TileId, area: Rect, side: Side)
    requires { (domain : Area) × IsLinkedBut store.old domain id area }
    ensures mended { IsMended store.old store.new id area }
    ensures named { AllName store.new id area (opposite side) }
    ensures spare { store.old.spare ≤ store.new.spare }
{
    let mut next = stitch(&read(store, id), side);
    while let Some(at) = next {
        let neighbour = read(store, at);
        if !faces(area, side, neighbour.area) {
            return;
        }
        let mended = facing(neighbour, side, id);
        store.write(at, mended);
        next = onward(&mended, side);
    }
}
