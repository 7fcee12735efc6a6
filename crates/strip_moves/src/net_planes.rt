ghost use Rattle.std.specs.Prelude.{◌≡◌, ◌<◌, length};
ghost use Rattle.plane_set.specs.Standing.{HasPlanes};
ghost use Rattle.strip_moves.specs.Grounds.{board_area, ground_of};

use board_model::Board;
use geo_rect::{KindId, LayerId, NetId};
use plane_core::Plane;
use plane_set::PlaneSet;

/// The plane of the net's wires on the layer `l`.
pub fn wires_of<'a, P: Plane>(
    board: &Board,
    planes: &'a PlaneSet<P>,
    net: NetId,
    l: LayerId,
) -> &'a P
    requires planes { HasPlanes board.now.parts planes.now }
    requires net { net.0 < length board.now.parts.net_names }
    requires layer { l.0 < length board.now.parts.layers }
    ensures region { P.region result.now ≡ board_area board.now.parts }
    ensures strips { P.strips result.now ≡ (ground_of board.now.parts planes.now net).wire_strips l }
{
    planes.wire(l, board.class_of(net))
}

/// The plane of the net's vias of kind `k`.
pub fn vias_of<'a, P: Plane>(board: &Board, planes: &'a PlaneSet<P>, net: NetId, k: KindId) -> &'a P
    requires planes { HasPlanes board.now.parts planes.now }
    requires net { net.0 < length board.now.parts.net_names }
    requires kind { k.0 < length board.now.parts.kinds }
    ensures region { P.region result.now ≡ board_area board.now.parts }
    ensures strips { P.strips result.now ≡ (ground_of board.now.parts planes.now net).via_strips k }
{
    planes.via(k, board.class_of(net))
}
