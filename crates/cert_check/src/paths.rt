//! Whether a connection matches the bound.
ghost use Rattle.std.specs.Prelude.{◌<◌, ◌↔◌, length, IfOk, IfSome, IsTrue};
ghost use Rattle.std.specs.Option.{option_copied};
ghost use Rattle.plane_set.specs.Standing.{HasPlanes};
ghost use Rattle.strip_moves.specs.Grounds.{ground_of};
ghost use Rattle.walk_check.specs.Corners.{HasPlaces};
ghost use Rattle.cert_check.specs.Verdicts.{IsWalkOf, IsMatch};

use board_model::{Board, Conn};
use geo_rect::{NetId, NoMemory, Spot};
use plane_core::Plane;
use plane_set::PlaneSet;
use std::alloc::Global;
use walk_check::bad_corner;

/// Whether the connection is a walk from a source box to a target box, and costs `d`.
fn is_walk_of<P: Plane>(
    alloc: Global,
    board: &Board,
    planes: &PlaneSet<P>,
    net: NetId,
    sources: &[Spot],
    targets: &[Spot],
    conn: &Conn,
    d: u128,
) -> Result<bool, NoMemory>
    requires planes { HasPlanes board.now.parts planes.now }
    requires net { net.0 < length board.now.parts.net_names }
    requires places { HasPlaces conn.now }
    ensures { IfOk result (λ walks. IsTrue walks ↔ IsWalkOf board.now.parts (ground_of board.now.parts planes.now net) sources.now targets.now conn.now d) }
{
    if conn.cost != d {
        return Ok(false);
    }
    let bad = bad_corner(alloc, board, planes, net, sources, targets, conn)?;
    Ok(bad.is_none())
}

/// Whether the connection is a walk that costs the bound, and there is none where there is no bound.
pub fn is_match<P: Plane>(
    alloc: Global,
    board: &Board,
    planes: &PlaneSet<P>,
    net: NetId,
    sources: &[Spot],
    targets: &[Spot],
    conn: Option<&Conn>,
    bound: Option<u128>,
) -> Result<bool, NoMemory>
    requires planes { HasPlanes board.now.parts planes.now }
    requires net { net.0 < length board.now.parts.net_names }
    requires places { IfSome (option_copied conn) HasPlaces }
    ensures { IfOk result (λ good. IsTrue good ↔ IsMatch board.now.parts (ground_of board.now.parts planes.now net) sources.now targets.now (option_copied conn.entry) bound) }
{
    match (conn, bound) {
        (None, None) => Ok(true),
        (Some(conn), Some(d)) => is_walk_of(alloc, board, planes, net, sources, targets, conn, d),
        _ => Ok(false),
    }
}
