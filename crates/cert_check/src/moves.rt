//! Whether the starts of a box and the moves of an entry are covered.
ghost use Rattle.std.specs.Prelude.{◌+◌, ◌^◌, ◌<◌, ◌↔◌, length, All, IfOk, IsTrue};
ghost use Rattle.plane_set.specs.Standing.{HasPlanes};
ghost use Rattle.route_law.specs.Right.{IsWellPlaced};
ghost use Rattle.strip_moves.specs.Grounds.{ground_of};
ghost use Rattle.strip_moves.specs.Boxes.{IsBoardBox, HasBoundedArea};
ghost use Rattle.cert_check.specs.Fronts.{HasBoundedFront};
ghost use Rattle.cert_check.specs.Stages.{HasCoveredStarts, HasCoveredMoves};

use crate::covers::are_covered;
use board_model::Board;
use geo_rect::{NetId, NoMemory, Spot};
use plane_core::Plane;
use plane_set::PlaneSet;
use route_law::{Cert, Entry};
use std::alloc::Global;
use strip_moves::{moves_of, starts_of};

/// Whether each start of the source box of this number is covered.
pub fn are_starts_covered<P: Plane>(
    alloc: Global,
    board: &Board,
    planes: &PlaneSet<P>,
    net: NetId,
    targets: &[Spot],
    cert: &Cert,
    number: u64,
    source: Spot,
) -> Result<bool, NoMemory>
    requires planes { HasPlanes board.now.parts planes.now }
    requires net { net.0 < length board.now.parts.net_names }
    requires some { 0 < length targets.now }
    requires targets { All HasBoundedArea targets.now }
    requires entries { All HasBoundedFront cert.now.entries }
    requires source { IsBoardBox board.now.parts source }
    ensures { IfOk result (λ covered. IsTrue covered ↔ HasCoveredStarts (ground_of board.now.parts planes.now net) targets.now cert.now source) }
{
    let starts = starts_of(alloc, board, planes, net, number, source)?;
    Ok(are_covered(targets, cert, starts.as_slice()))
}

/// Whether each move of the entry of this number is covered.
pub fn are_moves_covered<P: Plane>(
    alloc: Global,
    board: &Board,
    planes: &PlaneSet<P>,
    net: NetId,
    targets: &[Spot],
    cert: &Cert,
    number: u64,
    from: Entry,
) -> Result<bool, NoMemory>
    requires planes { HasPlanes board.now.parts planes.now }
    requires net { net.0 < length board.now.parts.net_names }
    requires some { 0 < length targets.now }
    requires targets { All HasBoundedArea targets.now }
    requires entries { All HasBoundedFront cert.now.entries }
    requires placed { IsWellPlaced (ground_of board.now.parts planes.now net) from }
    requires cost { from.cost + 2 ^ 26 < 2 ^ 128 }
    ensures { IfOk result (λ covered. IsTrue covered ↔ HasCoveredMoves (ground_of board.now.parts planes.now net) targets.now cert.now from) }
{
    let moves = moves_of(alloc, board, planes, net, number, from)?;
    Ok(are_covered(targets, cert, moves.as_slice()))
}
