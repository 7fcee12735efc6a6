//! The pour of a net in a zone of a layer.

ghost use Rattle.std.specs.Prelude.{◌↔◌, ◌<◌, length, All, IfOk};
ghost use Rattle.geo_rect.specs.declared.shapes.Point.{Point};
ghost use Rattle.geo_rect.specs.Plane.{IsBounded};
ghost use Rattle.board_parts.specs.Rules.{IsOnBoard};
ghost use Rattle.plane_set.specs.Joins.{IsInOneOf};
ghost use Rattle.plane_set.specs.Standing.{StandsFor};
ghost use Rattle.zone_fill.specs.Pour.{IsReached, IsPour};
ghost use Rattle.zone_fill.specs.Poured.{AreFloodedParts};
ghost use Rattle.zone_fill.specs.Rules.{KeepsRules};

use crate::cuts::open_parts;
use crate::flood::flooded;
use crate::marks::marked_parts;
use crate::seeds::seeds_of;
use board_model::{Board, Shape};
use geo_rect::{LayerId, List, NetId, NoMemory, Rect};
use plane_core::Plane;
use plane_set::PlaneSet;
use std::alloc::Global;
use strip_moves::wires_of;

/// The boxes where a pour of the net may flow inside the zone, a rectangle of the board, on the layer: what the
/// zone has of each strip that has a point to which the net's wires may walk, inside the zone, from a shape of
/// the net among `shapes`. The planes stand for these shapes. All in micrometres. It takes time in the square of
/// the number of strips in the zone.
pub fn pour<P: Plane>(
    alloc: Global,
    board: &Board,
    planes: &PlaneSet<P>,
    net: NetId,
    layer: LayerId,
    zone: Rect,
    shapes: &[Shape],
) -> Result<List<Rect>, NoMemory>
    requires planes { StandsFor board.now.parts shapes.now planes.now }
    requires net { net.0 < length board.now.parts.net_names }
    requires layer { layer.0 < length board.now.parts.layers }
    requires zone { IsOnBoard board.now.parts.width board.now.parts.height zone }
    ensures pour { IfOk result (λ boxes. IsPour board.now.parts shapes.now net layer zone boxes) }
    ensures points { IfOk result (λ boxes. (p : Point) → IsReached board.now.parts shapes.now net layer zone p ↔ IsInOneOf boxes p) }
    ensures rules { IfOk result (λ boxes. (p : Point) → IsInOneOf boxes p → KeepsRules board.now.parts shapes.now net layer p) }
{
    let plane = wires_of(board, planes, net, layer);
    let strips = plane.strips_in(alloc, zone)?;
    let parts = open_parts(alloc, strips.as_slice(), net, zone)?;
    flooded_parts(alloc, parts.as_slice(), shapes, net, layer)
}

/// The parts that are flooded from those with a point of a shape of the net on the layer.
fn flooded_parts(
    alloc: Global,
    parts: &[Rect],
    shapes: &[Shape],
    net: NetId,
    layer: LayerId,
) -> Result<List<Rect>, NoMemory>
    requires { All IsBounded parts.now }
    ensures { IfOk result (λ boxes. AreFloodedParts shapes.now net layer parts.now boxes) }
{
    let seeds = seeds_of(alloc, parts, shapes, net, layer)?;
    let marks = flooded(alloc, parts, seeds)?;
    marked_parts(alloc, parts, marks.as_slice())
}
