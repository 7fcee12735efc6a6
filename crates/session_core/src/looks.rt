//! What a session tells without a change.

ghost use Rattle.std.specs.Prelude.{◌≡◌, ◌<◌, length, IfOk, List as Items};
ghost use Rattle.board_model.specs.declared.made.Conn.{Conn as Connection};
ghost use Rattle.board_model.specs.Shapes.{state_shapes};
ghost use Rattle.plane_set.specs.Standing.{HasPlanes, StandsFor};
ghost use Rattle.route_law.specs.Steps.{AreWireStrips, items_from};

use crate::turns::copy_of;
use board_model::{Board, Conn};
use geo_rect::{ClassId, LayerId, List, NoMemory};
use plane_core::{Plane, Strip};
use plane_set::PlaneSet;
use route_law::Item;
use std::alloc::Global;

/// The connections with their numbers, from 1.
pub fn items_of(alloc: Global, conns: &[Conn]) -> Result<List<Item>, NoMemory>
    ensures { IfOk result (λ items. items ≡ items_from 1 conns.now) }
{
    let mut items = List::new(alloc);
    for conn in conns {
        let number = items.len() as u64 + 1;
        items.push(Item {
            number,
            conn: copy_of(alloc, conn)?,
        })?;
    }
    Ok(items)
}

/// The strips of the wire plane of a class on a layer.
pub fn wire_strips<P: Plane>(
    alloc: Global,
    board: &Board,
    planes: &PlaneSet<P>,
    l: LayerId,
    c: ClassId,
) -> Result<List<Strip>, NoMemory>
    requires planes { HasPlanes board.now.parts planes.now }
    requires layer { l.0 < length board.now.parts.layers }
    requires class { c.0 < length board.now.parts.classes }
    ensures { IfOk result (λ strips. (lists : Items (Items Connection))
        → StandsFor board.now.parts (state_shapes board.now.parts lists) planes.now
        → AreWireStrips board.now.parts lists l c strips) }
{
    strips_of(alloc, planes.wire(l, c))
}

/// All strips of a plane.
fn strips_of<P: Plane>(alloc: Global, plane: &P) -> Result<List<Strip>, NoMemory>
    ensures { IfOk result (λ strips. strips ≡ P.strips plane.now) }
{
    let found = plane.strips_in(alloc, plane.domain())?;
    List::from_slice(alloc, found.as_slice())
}
