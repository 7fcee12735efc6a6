//! Whether an entry is well placed.
ghost use Rattle.std.specs.Prelude.{◌<◌, ◌↔◌, length, IsTrue};
ghost use Rattle.plane_set.specs.Standing.{HasPlanes};
ghost use Rattle.route_law.specs.Right.{IsWellPlaced};
ghost use Rattle.strip_moves.specs.Grounds.{ground_of};

use crate::passages::wire_passage;
use crate::rects::{corner, lies_in};
use board_model::Board;
use geo_rect::{NetId, same_rect};
use plane_core::Plane;
use plane_set::PlaneSet;
use route_law::Entry;

/// Whether the entry's strip is one that the net may pass, and has the front.
pub fn is_well_placed<P: Plane>(board: &Board, planes: &PlaneSet<P>, net: NetId, e: Entry) -> bool
    requires planes { HasPlanes board.now.parts planes.now }
    requires net { net.0 < length board.now.parts.net_names }
    ensures { IsTrue result ↔ IsWellPlaced (ground_of board.now.parts planes.now net) e }
{
    let Some(strip) = wire_passage(board, planes, net, e.layer, corner(e.front)) else {
        return false;
    };
    if !same_rect(strip, e.strip) {
        return false;
    }
    lies_in(e.front, e.strip)
}
