ghost use Rattle.std.specs.Prelude.{◌≡◌, ◌≤◌};
ghost use Rattle.tile_store.specs.Store.{IsPresent};
ghost use Rattle.stitch_walk.specs.Pieces.{IsRelabelled, FillDomain};

use crate::reads::read;
use geo_rect::Label;
use stitch_walk::Tiling;
use tile_store::{Tile, TileId};

/// Gives a tile another label. It takes no memory.
pub fn relabel(t: &mut Tiling, id: TileId, label: Label)
    requires { IsPresent t.old.store id }
    ensures relabelled { IsRelabelled t.old.store t.new.store id label }
    ensures domain { t.new.domain ≡ t.old.domain }
    ensures spare { t.old.store.spare ≤ t.new.store.spare }
    ensures filled { FillDomain t.new.store t.new.domain }
{
    let tile = read(&t.store, id);
    t.store.write(id, Tile { label, ..tile });
}
