//! The strips under numbers of tiles, put in order.
ghost use Rattle.std.specs.Prelude.{◌≡◌, AllPairs, Contains, IfOk, IsPermutation};
ghost use Rattle.plane_core.specs.declared.strips.Strip.{Strip as Piece};
ghost use Rattle.plane_core.specs.Strips.{Precedes};
ghost use Rattle.tile_store.specs.declared.tiles.TileId.{TileId as Number};
ghost use Rattle.tile_store.specs.Store.{IsPresent};
ghost use Rattle.stitch_walk.specs.Neighbours.{IsDistinct};
ghost use Rattle.strip_merge.specs.StripsOf.{AreUnder, ArePieces};

use geo_rect::NoMemory;
use plane_core::{Strip, Strips};
use std::alloc::Global;
use std::sync::ledger::Ledger;
use stitch_walk::Tiling;
use tile_store::{Steps, TileId};

/// The strips under these numbers, in the order of the numbers.
fn strips_under<L: Ledger>(
    alloc: Global,
    tiling: &Tiling,
    ids: &[TileId],
    steps: &mut Steps<L>,
) -> Result<Strips, NoMemory>
    requires { (id : Number) → Contains ids.now id → IsPresent tiling.now.store id }
    ensures { IfOk result (λ found. AreUnder tiling.now.store ids.now found) }
{
    let mut found = Strips::new(alloc);
    for id in ids {
        let tile = tiling.tile(*id, steps);
        found.push(Strip {
            area: tile.area,
            label: tile.label,
        })?;
    }
    Ok(found)
}

/// Puts the strips in order: by their lowest row, and then by their leftmost column.
fn put_in_order(strips: &mut Strips)
    ensures same { IsPermutation strips.old strips.new }
    ensures in_order { AllPairs (λ (s : Piece) (t : Piece). Precedes t s → ⊥) strips.new }
{
    strips
        .items
        .sort_unstable_by_key(|s| (s.area.y0, s.area.x0));
}

/// The strips under these numbers, by their lowest row and then by their leftmost column.
pub fn ordered_strips<L: Ledger>(
    alloc: Global,
    tiling: &Tiling,
    ids: &[TileId],
    steps: &mut Steps<L>,
) -> Result<Strips, NoMemory>
    requires present { (id : Number) → Contains ids.now id → IsPresent tiling.now.store id }
    requires once { IsDistinct ids.now }
    ensures { IfOk result (λ found. ArePieces tiling.now.store ids.now found) }
{
    let _domain = tiling.domain;
    let mut found = strips_under(alloc, tiling, ids, steps)?;
    put_in_order(&mut found);
    Ok(found)
}
