//! The legs of a connection, one by one.

ghost use Rattle.std.specs.Prelude.{◌≡◌, ◌<◌, ◌↔◌, pos, length, IfOk, IfSome, IfNone, IsTrue};
ghost use Rattle.board_model.specs.Labels.{IsInSpan};
ghost use Rattle.board_model.specs.Segments.{stretch, segment};
ghost use Rattle.board_model.specs.Shapes.{place_of};
ghost use Rattle.board_model.specs.WellFormed.{IsWire, IsVia};
ghost use Rattle.plane_set.specs.Standing.{HasPlanes};
ghost use Rattle.walk_check.specs.Clear.{IsClearWire};
ghost use Rattle.walk_check.specs.Corners.{IsGoodLeg, AreGoodLegs, IsFirstBadLeg};
ghost use Rattle.strip_moves.specs.Grounds.{ground_of};

use crate::nodes::is_clear_via;
use crate::open_areas::is_open_in;
use board_model::{Board, Conn, Leg, ViaKind};
use geo_rect::{Interval, KindId, LayerId, NetId, NoMemory, Node, Rect};
use plane_core::Plane;
use plane_set::PlaneSet;
use std::alloc::Global;
use strip_moves::wires_of;

/// From the lower of two coordinates to the higher.
fn stretch(u: i32, v: i32) -> Interval
    ensures { result ≡ stretch u v (pos 0) }
{
    Interval {
        low: u.min(v),
        high: u.max(v),
    }
}

/// The points of a wire in a line from one node to another.
fn segment(from: Node, to: Node) -> Rect
    ensures { result ≡ segment (place_of from) (place_of to) (pos 0) }
{
    Rect::of(stretch(from.x, to.x), stretch(from.y, to.y))
}

/// Whether a wire may lead from one node to the other: they are on one layer, and exactly one of x
/// and y differs.
fn is_wire(from: Node, to: Node) -> bool
    ensures { IsTrue result ↔ IsWire from to }
{
    if from.layer.0 != to.layer.0 {
        return false;
    }
    if from.x == to.x {
        return from.y != to.y;
    }
    from.y == to.y
}

/// Whether a via of the kind has a pad on the layer.
fn is_in_span(kind: ViaKind, l: LayerId) -> bool
    ensures { IsTrue result ↔ IsInSpan kind l }
{
    if l.0 < kind.first.0 {
        return false;
    }
    if l.0 > kind.last.0 {
        return false;
    }
    true
}

/// Whether the nodes have the same x and y.
fn is_one_place(from: Node, to: Node) -> bool
    ensures { IsTrue result ↔ (place_of from ≡ place_of to) }
{
    if from.x != to.x {
        return false;
    }
    from.y == to.y
}

/// Whether a via of the kind may lead from one node to the other: they are at one place, on two
/// layers of the kind's span.
fn is_via(board: &Board, kind: KindId, from: Node, to: Node) -> bool
    ensures { IsTrue result ↔ IsVia board.now.parts kind from to }
{
    if kind.0 >= board.kinds() {
        return false;
    }
    if !is_one_place(from, to) {
        return false;
    }
    if from.layer.0 == to.layer.0 {
        return false;
    }
    if !is_in_span(board.kind(kind), from.layer) {
        return false;
    }
    is_in_span(board.kind(kind), to.layer)
}

/// Whether the net may pass each node of a wire on a layer of the board, both ends too.
fn is_clear_wire<P: Plane>(
    alloc: Global,
    board: &Board,
    planes: &PlaneSet<P>,
    net: NetId,
    from: Node,
    to: Node,
) -> Result<bool, NoMemory>
    requires planes { HasPlanes board.now.parts planes.now }
    requires net { net.0 < length board.now.parts.net_names }
    requires layer { to.layer.0 < length board.now.parts.layers }
    ensures { IfOk result (λ clear. IsTrue clear ↔ IsClearWire (ground_of board.now.parts planes.now net) from to) }
{
    let plane = wires_of(board, planes, net, to.layer);
    is_open_in(alloc, plane, net, segment(from, to))
}

/// Whether a wire from one node to another is good.
fn is_good_wire<P: Plane>(
    alloc: Global,
    board: &Board,
    planes: &PlaneSet<P>,
    net: NetId,
    from: Node,
    to: Node,
) -> Result<bool, NoMemory>
    requires planes { HasPlanes board.now.parts planes.now }
    requires net { net.0 < length board.now.parts.net_names }
    ensures { IfOk result (λ good. IsTrue good ↔ IsGoodLeg board.now.parts (ground_of board.now.parts planes.now net) from (Leg.Wire to)) }
{
    if !is_wire(from, to) {
        return Ok(false);
    }
    if to.layer.0 >= board.layers() {
        return Ok(false);
    }
    is_clear_wire(alloc, board, planes, net, from, to)
}

/// Whether a via from one node to another is good.
fn is_good_via<P: Plane>(
    board: &Board,
    planes: &PlaneSet<P>,
    net: NetId,
    from: Node,
    kind: KindId,
    to: Node,
) -> bool
    requires planes { HasPlanes board.now.parts planes.now }
    requires net { net.0 < length board.now.parts.net_names }
    ensures { IsTrue result ↔ IsGoodLeg board.now.parts (ground_of board.now.parts planes.now net) from (Leg.Via kind to) }
{
    if !is_via(board, kind, from, to) {
        return false;
    }
    is_clear_via(board, planes, net, kind, to)
}

/// Whether the leg from a node is good.
fn is_good_leg<P: Plane>(
    alloc: Global,
    board: &Board,
    planes: &PlaneSet<P>,
    net: NetId,
    from: Node,
    leg: Leg,
) -> Result<bool, NoMemory>
    requires planes { HasPlanes board.now.parts planes.now }
    requires net { net.0 < length board.now.parts.net_names }
    ensures { IfOk result (λ good. IsTrue good ↔ IsGoodLeg board.now.parts (ground_of board.now.parts planes.now net) from leg) }
{
    match leg {
        Leg::Wire(to) => is_good_wire(alloc, board, planes, net, from, to),
        Leg::Via(kind, to) => Ok(is_good_via(board, planes, net, from, kind, to)),
    }
}

/// The number of the first leg that is not good, from 1; `None` where all are good.
pub fn first_bad_leg<P: Plane>(
    alloc: Global,
    board: &Board,
    planes: &PlaneSet<P>,
    net: NetId,
    conn: &Conn,
) -> Result<Option<u64>, NoMemory>
    requires planes { HasPlanes board.now.parts planes.now }
    requires net { net.0 < length board.now.parts.net_names }
    ensures some { IfOk result (λ bad. IfSome bad (λ k. IsFirstBadLeg board.now.parts (ground_of board.now.parts planes.now net) conn.now.start conn.now.legs k)) }
    ensures none { IfOk result (λ bad. IfNone bad (AreGoodLegs board.now.parts (ground_of board.now.parts planes.now net) conn.now.start conn.now.legs (length conn.now.legs))) }
{
    let mut from = conn.start;
    let mut corner = 0;
    for leg in conn.legs.as_slice() {
        corner += 1;
        if !is_good_leg(alloc, board, planes, net, from, *leg)? {
            return Ok(Some(corner));
        }
        from = leg.end();
    }
    Ok(None)
}
