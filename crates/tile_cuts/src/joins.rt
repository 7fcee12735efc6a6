ghost use Rattle.std.specs.Prelude.{◌≡◌, ◌≤◌};
ghost use Rattle.stitch_walk.specs.Pieces.{IsJoined, CanJoin, AreStacked, AreInLine};
ghost use Rattle.tile_cuts.specs.Parts.{AreJoinable, AreJoined};

use crate::mending::relink;
use crate::parts::join_areas;
use crate::reads::read;
use stitch_walk::Tiling;
use tile_store::{Tile, TileId};

/// Joins a tile with its right neighbour, which has the same rows and the same label. It takes no memory.
pub fn join_side(t: &mut Tiling, id: TileId)
    requires { CanJoin AreInLine t.old.store id }
    ensures joined { IsJoined AreInLine t.old.store t.new.store id }
    ensures domain { t.new.domain ≡ t.old.domain }
    ensures spare { t.old.store.spare ≤ t.new.store.spare }
{
    match read(&t.store, id).tr {
        Some(other) => join(t, id, other),
        None => unreachable!(),
    }
}

/// Joins a tile with its upper neighbour, which has the same columns and the same label. It takes no memory.
pub fn join_up(t: &mut Tiling, id: TileId)
    requires { CanJoin AreStacked t.old.store id }
    ensures joined { IsJoined AreStacked t.old.store t.new.store id }
    ensures domain { t.new.domain ≡ t.old.domain }
    ensures spare { t.old.store.spare ≤ t.new.store.spare }
{
    match read(&t.store, id).rt {
        Some(other) => join(t, id, other),
        None => unreachable!(),
    }
}

/// Joins two tiles of one label that are a rectangle together. The joined one is under `id`.
fn join(t: &mut Tiling, id: TileId, other: TileId)
    requires { AreJoinable t.old.store id other }
    ensures joined { AreJoined t.old.store t.new.store id other }
    ensures domain { t.new.domain ≡ t.old.domain }
    ensures spare { t.old.store.spare ≤ t.new.store.spare }
{
    let first = read(&t.store, id);
    let second = t.store.take(other);
    let area = join_areas(first.area, second.area);
    let whole = Tile {
        area,
        tr: second.tr,
        rt: second.rt,
        ..first
    };
    t.store.write(id, whole);
    relink(&mut t.store, id, area);
}
