//! Whether a connection is a walk of a net, and its first bad corner.

ghost use Rattle.std.specs.Prelude.{◌≡◌, ◌<◌, ◌^◌, length, IfOk, IfSome, IfNone};
ghost use Rattle.plane_set.specs.Standing.{HasPlanes};
ghost use Rattle.route_law.specs.Walks.{last_node};
ghost use Rattle.walk_check.specs.Corners.{IsFirstBadCorner};
ghost use Rattle.route_law.specs.Joins.{IsConnection};
ghost use Rattle.strip_moves.specs.Grounds.{ground_of};

use crate::costs::cost_of;
use crate::legs::first_bad_leg;
use crate::nodes::{has_node, is_good_start};
use board_model::{Board, Conn};
use geo_rect::{NetId, NoMemory, Node, Spot};
use plane_core::Plane;
use plane_set::PlaneSet;
use std::alloc::Global;

/// The number of legs. A list has fewer than 2^63 items.
fn leg_count(conn: &Conn) -> u64
    ensures exact { result ≡ length conn.now.legs }
    ensures small { result < 2 ^ 63 }
{
    conn.legs.items.len() as u64
}

/// The node in which the connection ends.
fn end_of(conn: &Conn) -> Node
    ensures { result ≡ last_node conn.now.start conn.now.legs }
{
    let mut end = conn.start;
    for leg in conn.legs.as_slice() {
        end = leg.end();
    }
    end
}

/// The first bad corner of a connection, `None` where it is a walk of the net from a source box to a
/// target box with its true cost. Corner 0 is the start; it is bad where no source box has it or the
/// net may not pass it. Corner `k` is the node in which leg `k` ends, from 1; it is bad where the
/// leg is malformed, leaves the board, or has a node or a via that the net may not pass. The last
/// corner is bad also where no target box has it. One more than the last corner is named where the
/// cost is not the walk's.
pub fn bad_corner<P: Plane>(
    alloc: Global,
    board: &Board,
    planes: &PlaneSet<P>,
    net: NetId,
    sources: &[Spot],
    targets: &[Spot],
    conn: &Conn,
) -> Result<Option<u64>, NoMemory>
    requires planes { HasPlanes board.now.parts planes.now }
    requires net { net.0 < length board.now.parts.net_names }
    ensures some { IfOk result (λ bad. IfSome bad (λ k.
        IsFirstBadCorner board.now.parts (ground_of board.now.parts planes.now net) conn.now sources.now targets.now k)) }
    ensures bad { IfOk result (λ bad. IfSome bad (λ k.
        IsConnection board.now.parts (ground_of board.now.parts planes.now net) conn.now sources.now targets.now → ⊥)) }
    ensures none { IfOk result (λ bad. IfNone bad
        (IsConnection board.now.parts (ground_of board.now.parts planes.now net) conn.now sources.now targets.now)) }
{
    if !is_good_start(board, planes, net, sources, conn.start) {
        return Ok(Some(0));
    }
    if let Some(corner) = first_bad_leg(alloc, board, planes, net, conn)? {
        return Ok(Some(corner));
    }
    let corners = leg_count(conn);
    if !has_node(targets, end_of(conn)) {
        return Ok(Some(corners));
    }
    if cost_of(board, conn) != conn.cost {
        return Ok(Some(corners + 1));
    }
    Ok(None)
}
