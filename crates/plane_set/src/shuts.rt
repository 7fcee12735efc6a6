//! Where a plane is left to no net whatever stands on the board.

ghost use Rattle.std.specs.Prelude.{◌<◌, length, IfOk, OnOk};
ghost use Rattle.board_parts.specs.Rules.{IsKeepout};
ghost use Rattle.plane_set.specs.Families.{rows_in, rule_in};
ghost use Rattle.plane_set.specs.Shutting.{AreShutAreas, HaveShutPoints};

use crate::families::Family;
use board_model::{Board, Keepout};
use geo_rect::{ClassId, List, NoMemory, Rect};
use grow_rules::frame;
use std::alloc::Global;

/// Areas that have just those points of the board at which a square of the plane of class `c` in a row
/// of the family leaves the board or is too close to a keep-out. They may overlap.
pub fn shut_areas(
    alloc: Global,
    board: &Board,
    family: Family,
    row: u32,
    c: ClassId,
) -> Result<List<Rect>, NoMemory>
    requires row { row < rows_in board.now.parts family }
    requires class { c.0 < length board.now.parts.classes }
    ensures { IfOk result (λ areas. AreShutAreas board.now.parts (rule_in board.now.parts family row c) areas) }
{
    let edges = frame(board, family.widest(board, row, c));
    let mut areas = List::from_slice(alloc, &edges)?;
    for keepout in board.keepouts() {
        push_shut(&mut areas, board, family, row, c, keepout)?;
    }
    Ok(areas)
}

/// Adds the area that the keep-out shuts in the plane of class `c` in a row of the family.
fn push_shut(
    areas: &mut List<Rect>,
    board: &Board,
    family: Family,
    row: u32,
    c: ClassId,
    keepout: &Keepout,
) -> Result<(), NoMemory>
    requires row { row < rows_in board.now.parts family }
    requires class { c.0 < length board.now.parts.classes }
    requires known { IsKeepout board.now.parts keepout.now }
    ensures { OnOk result (HaveShutPoints (rule_in board.now.parts family row c) keepout.now areas.old areas.new) }
{
    let Some(area) = family.shut_area(board, row, c, keepout) else {
        return Ok(());
    };
    areas.push(area)
}
