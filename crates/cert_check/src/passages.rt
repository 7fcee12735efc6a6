//! Which strip the net may pass at a point.
ghost use Rattle.std.specs.Prelude.{◌<◌, ◌↔◌, length, IsTrue, IfSome, IfNone};
ghost use Rattle.geo_rect.specs.declared.shapes.Rect.{Rect as Area};
ghost use Rattle.geo_rect.specs.Plane.{HasPoint};
ghost use Rattle.board_model.specs.Labels.{Admits};
ghost use Rattle.plane_set.specs.Standing.{HasPlanes};
ghost use Rattle.route_law.specs.Ground.{IsPassableStrip};
ghost use Rattle.strip_moves.specs.Grounds.{ground_of};
ghost use Rattle.cert_check.specs.Passages.{IsWirePassage, IsViaPassage};

use crate::rects::has_point;
use board_model::Board;
use geo_rect::{KindId, Label, LayerId, NetId, Point, Rect};
use plane_core::Plane;
use plane_set::PlaneSet;

/// Whether a point of this label is free or the net's.
fn admits(label: Label, net: NetId) -> bool
    ensures { IsTrue result ↔ Admits label net }
{
    match label {
        Label::Free => true,
        Label::One(owner) => owner.0 == net.0,
        Label::Many => false,
    }
}

/// The strip of the plane that the net may pass and that has the point.
fn passage<P: Plane>(plane: &P, net: NetId, p: Point) -> Option<Rect>
    ensures strip { IfSome result (λ t. IsPassableStrip (P.strips plane.now) net t) }
    ensures point { IfSome result (λ t. HasPoint t p) }
    ensures none { IfNone result ((t : Area) → IsPassableStrip (P.strips plane.now) net t → HasPoint t p → ⊥) }
{
    if !has_point(plane.domain(), p) {
        return None;
    }
    let strip = plane.strip_at(p);
    if !admits(strip.label, net) {
        return None;
    }
    Some(strip.area)
}

/// The strip of the layer that the net may pass and that has the point.
pub fn wire_passage<P: Plane>(
    board: &Board,
    planes: &PlaneSet<P>,
    net: NetId,
    l: LayerId,
    p: Point,
) -> Option<Rect>
    requires planes { HasPlanes board.now.parts planes.now }
    requires net { net.0 < length board.now.parts.net_names }
    ensures some { IfSome result (λ t. IsWirePassage (ground_of board.now.parts planes.now net) l p t) }
    ensures none { IfNone result ((t : Area) → IsWirePassage (ground_of board.now.parts planes.now net) l p t → ⊥) }
{
    if l.0 >= board.layers() {
        return None;
    }
    passage(planes.wire(l, board.class_of(net)), net, p)
}

/// The strip of the via plane of the kind that the net may pass and that has the point.
pub fn via_passage<P: Plane>(
    board: &Board,
    planes: &PlaneSet<P>,
    net: NetId,
    k: KindId,
    p: Point,
) -> Option<Rect>
    requires planes { HasPlanes board.now.parts planes.now }
    requires net { net.0 < length board.now.parts.net_names }
    ensures some { IfSome result (λ w. IsViaPassage (ground_of board.now.parts planes.now net) k p w) }
    ensures none { IfNone result ((w : Area) → IsViaPassage (ground_of board.now.parts planes.now net) k p w → ⊥) }
{
    if k.0 >= board.kinds() {
        return None;
    }
    passage(planes.via(k, board.class_of(net)), net, p)
}
