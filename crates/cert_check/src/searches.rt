//! The first entry, or source box, that is not as it should be.
ghost use Rattle.std.specs.Prelude.{◌<◌, length, All, IfOk, IfNone};
ghost use Rattle.plane_set.specs.Standing.{HasPlanes};
ghost use Rattle.strip_moves.specs.Grounds.{ground_of};
ghost use Rattle.strip_moves.specs.Boxes.{IsBoardBox, HasBoundedArea};
ghost use Rattle.cert_check.specs.Fronts.{HasBoundedFront, HasSmallCost};
ghost use Rattle.cert_check.specs.Searches.{IsSearched};
ghost use Rattle.cert_check.specs.Stages.{Placed, Founded, Started, Followed, ArePlaced};

use crate::moves::{are_moves_covered, are_starts_covered};
use crate::origins::is_founded;
use crate::places::is_well_placed;
use board_model::Board;
use geo_rect::{NetId, NoMemory, Spot};
use plane_core::Plane;
use plane_set::PlaneSet;
use route_law::{Cert, Entry};
use std::alloc::Global;

/// The first entry that is not well placed.
pub fn first_misplaced<P: Plane>(
    board: &Board,
    planes: &PlaneSet<P>,
    net: NetId,
    entries: &[Entry],
) -> Option<u64>
    requires planes { HasPlanes board.now.parts planes.now }
    requires net { net.0 < length board.now.parts.net_names }
    ensures { IsSearched (Placed (ground_of board.now.parts planes.now net)) entries.now result }
{
    for n in 0..entries.len() {
        if !is_well_placed(board, planes, net, entries[n]) {
            return Some(n as u64);
        }
    }
    None
}

/// The first entry that does not come from where it says.
pub fn first_unfounded<P: Plane>(
    board: &Board,
    planes: &PlaneSet<P>,
    net: NetId,
    sources: &[Spot],
    entries: &[Entry],
) -> Option<u64>
    requires planes { HasPlanes board.now.parts planes.now }
    requires net { net.0 < length board.now.parts.net_names }
    requires placed { ArePlaced (ground_of board.now.parts planes.now net) entries.now }
    ensures first { IsSearched (Founded (ground_of board.now.parts planes.now net) sources.now entries.now) entries.now result }
    ensures costs { IfNone result (All HasSmallCost entries.now) }
{
    for n in 0..entries.len() {
        if !is_founded(board, planes, net, sources, entries, n, entries[n]) {
            return Some(n as u64);
        }
    }
    None
}

/// The first source box of which a start is not covered.
pub fn first_uncovered_start<P: Plane>(
    alloc: Global,
    board: &Board,
    planes: &PlaneSet<P>,
    net: NetId,
    sources: &[Spot],
    targets: &[Spot],
    cert: &Cert,
) -> Result<Option<u64>, NoMemory>
    requires planes { HasPlanes board.now.parts planes.now }
    requires net { net.0 < length board.now.parts.net_names }
    requires sources { All (IsBoardBox board.now.parts) sources.now }
    requires some { 0 < length targets.now }
    requires targets { All HasBoundedArea targets.now }
    requires entries { All HasBoundedFront cert.now.entries }
    ensures { IfOk result (λ first. IsSearched (Started (ground_of board.now.parts planes.now net) targets.now cert.now) sources.now first) }
{
    for n in 0..sources.len() {
        let covered = are_starts_covered(
            alloc, board, planes, net, targets, cert, n as u64, sources[n],
        )?;
        if !covered {
            return Ok(Some(n as u64));
        }
    }
    Ok(None)
}

/// The first entry of which a move is not covered.
pub fn first_uncovered_move<P: Plane>(
    alloc: Global,
    board: &Board,
    planes: &PlaneSet<P>,
    net: NetId,
    targets: &[Spot],
    cert: &Cert,
) -> Result<Option<u64>, NoMemory>
    requires planes { HasPlanes board.now.parts planes.now }
    requires net { net.0 < length board.now.parts.net_names }
    requires some { 0 < length targets.now }
    requires targets { All HasBoundedArea targets.now }
    requires placed { ArePlaced (ground_of board.now.parts planes.now net) cert.now.entries }
    requires entries { All HasBoundedFront cert.now.entries }
    requires costs { All HasSmallCost cert.now.entries }
    ensures { IfOk result (λ first. IsSearched (Followed (ground_of board.now.parts planes.now net) targets.now cert.now) cert.now.entries first) }
{
    let entries = cert.entries.as_slice();
    for n in 0..entries.len() {
        let covered = are_moves_covered(
            alloc, board, planes, net, targets, cert, n as u64, entries[n],
        )?;
        if !covered {
            return Ok(Some(n as u64));
        }
    }
    Ok(None)
}
