//! Whether a net may pass a node.

ghost use Rattle.std.specs.Prelude.{◌≡◌, ◌<◌, ◌↔◌, List, length, IsTrue};
ghost use Rattle.board_model.specs.declared.shapes.Shape.{Shape as OneShape};
ghost use Rattle.board_model.specs.Labels.{Admits, IsPassable};
ghost use Rattle.board_parts.specs.Lookup.{class_of};
ghost use Rattle.board_model.specs.Shapes.{place_of};
ghost use Rattle.grow_rules.specs.Frames.{IsBoardPoint};
ghost use Rattle.plane_set.specs.Standing.{wire_label, HasPlanes, StandsFor};

use crate::sets::PlaneSet;
use board_model::Board;
use geo_rect::{Label, NetId, Node, Point};
use plane_core::Plane;

impl<P: Plane> PlaneSet<P> {
    /// Whether a wire of the net may pass the node, a point of the board on one of its layers. It
    /// takes no memory.
    pub fn passable(&self, board: &Board, net: NetId, v: Node) -> bool
        requires planes { HasPlanes board.now.parts self.now }
        requires net { net.0 < length board.now.parts.net_names }
        requires layer { v.layer.0 < length board.now.parts.layers }
        requires place { IsBoardPoint board.now.parts (place_of v) }
        ensures label { IsTrue result
            ↔ Admits (wire_label self.now v.layer (class_of board.now.parts net) (place_of v)) net }
        ensures shapes { (shapes : List OneShape) → StandsFor board.now.parts shapes self.now
            → (IsTrue result ↔ IsPassable board.now.parts shapes net v) }
    {
        let plane = self.wire(v.layer, board.class_of(net));
        let strip = plane.strip_at(place(v));
        admits(strip.label, net)
    }
}

/// Where the node stands on its layer.
fn place(v: Node) -> Point
    ensures { result ≡ place_of v }
{
    Point { x: v.x, y: v.y }
}

/// Whether the net may pass a point of this label.
fn admits(label: Label, net: NetId) -> bool
    ensures { IsTrue result ↔ Admits label net }
{
    match label {
        Label::Free => true,
        Label::One(owner) => owner == net,
        Label::Many => false,
    }
}
