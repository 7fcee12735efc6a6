//! The walks along the four sides of a tile.
ghost use Rattle.std.specs.Prelude.{◌≡◌, ◌+◌, ◌≤◌, ◌+ℤ◌, pos, length, IfOk};
ghost use Rattle.plane_core.specs.declared.sides.Side.TheVariants.{Left, Below, Right, Above};
ghost use Rattle.plane_core.specs.Labels.{IsSmall};
ghost use Rattle.plane_core.specs.Sides.{turned};
ghost use Rattle.tile_store.specs.Store.{IsPresent};
ghost use Rattle.stitch_walk.specs.Neighbours.{side_of, AreNeighbours};

use crate::ids::Ids;
use crate::tilings::Tiling;
use geo_rect::{NoMemory, Rect};
use plane_core::Side;
use std::alloc::Global;
use std::sync::ledger::Ledger;
use tile_store::{Steps, TileId};

/// The row after the last one of the rectangle, with the side turned to the left.
fn row_past(r: Rect, side: Side) -> i32
    requires { IsSmall r }
    ensures { result ≡ (turned side r).y1 +ℤ pos 1 }
{
    side.turn(r).y1 + 1
}

/// The tiles on the side, from the one that the first stitch of the tile names, each by the next
/// stitch of the one before.
macro_rules! walk {
    ($tiling:ident, $alloc:ident, $id:ident, $steps:ident, $side:expr, $first:ident, $next:ident) => {{
        let tile = $tiling.tile($id, $steps);
        let edge = $side.turn(tile.area).rows();
        let mut found = Ids::new($alloc);
        let mut row = edge.low;
        let mut next = tile.$first;
        while row <= edge.high {
            let Some(neighbour) = next else {
                return Ok(found);
            };
            let other = $tiling.tile(neighbour, $steps);
            found.push(neighbour)?;
            row = row_past(other.area, $side);
            next = other.$next;
        }
        Ok(found)
    }};
}

impl Tiling {
    /// The tiles on a side of the tile under a number that is present, each once: on the left side
    /// (0) upwards, below (1) to the right, on the right side (2) downwards, above (3) to the left.
    /// It counts one step for the tile and one for each that it gives.
    pub fn side_walk<const SIDE: u8, L: Ledger>(
        &self,
        alloc: Global,
        id: TileId,
        steps: &mut Steps<L>,
    ) -> Result<Ids, NoMemory>
        requires present { IsPresent self.now.store id }
        requires side { SIDE ≤ 3 }
        ensures found { IfOk result (λ found. AreNeighbours self.now.store (side_of SIDE) id found) }
        ensures counted { IfOk result (λ found. steps.new ≡ steps.old + length found + 1) }
    {
        match SIDE {
            0 => self.left_walk(alloc, id, steps),
            1 => self.lower_walk(alloc, id, steps),
            2 => self.right_walk(alloc, id, steps),
            _ => self.upper_walk(alloc, id, steps),
        }
    }

    fn left_walk<L: Ledger>(
        &self,
        alloc: Global,
        id: TileId,
        steps: &mut Steps<L>,
    ) -> Result<Ids, NoMemory>
        requires { IsPresent self.now.store id }
        ensures found { IfOk result (λ found. AreNeighbours self.now.store Left id found) }
        ensures counted { IfOk result (λ found. steps.new ≡ steps.old + length found + 1) }
    {
        walk!(self, alloc, id, steps, Side::Left, bl, rt)
    }

    fn lower_walk<L: Ledger>(
        &self,
        alloc: Global,
        id: TileId,
        steps: &mut Steps<L>,
    ) -> Result<Ids, NoMemory>
        requires { IsPresent self.now.store id }
        ensures found { IfOk result (λ found. AreNeighbours self.now.store Below id found) }
        ensures counted { IfOk result (λ found. steps.new ≡ steps.old + length found + 1) }
    {
        walk!(self, alloc, id, steps, Side::Below, lb, tr)
    }

    fn right_walk<L: Ledger>(
        &self,
        alloc: Global,
        id: TileId,
        steps: &mut Steps<L>,
    ) -> Result<Ids, NoMemory>
        requires { IsPresent self.now.store id }
        ensures found { IfOk result (λ found. AreNeighbours self.now.store Right id found) }
        ensures counted { IfOk result (λ found. steps.new ≡ steps.old + length found + 1) }
    {
        walk!(self, alloc, id, steps, Side::Right, tr, lb)
    }

    fn upper_walk<L: Ledger>(
        &self,
        alloc: Global,
        id: TileId,
        steps: &mut Steps<L>,
    ) -> Result<Ids, NoMemory>
        requires { IsPresent self.now.store id }
        ensures found { IfOk result (λ found. AreNeighbours self.now.store Above id found) }
        ensures counted { IfOk result (λ found. steps.new ≡ steps.old + length found + 1) }
    {
        walk!(self, alloc, id, steps, Side::Above, rt, bl)
    }
}
