//! Fronts put into the queue, each under its key.
ghost use Rattle.std.specs.Prelude.{◌≡◌, ◌+◌, ◌^◌, ◌<◌, ◌≤◌, [], length, All, OnOk};
ghost use Rattle.plane_set.specs.Standing.{HasPlanes};
ghost use Rattle.strip_moves.specs.Grounds.{ground_of};
ghost use Rattle.strip_moves.specs.Boxes.{IsBoardBox, HasBoundedArea};
ghost use Rattle.tile_search.specs.Keys.{HasRoom};
ghost use Rattle.tile_search.specs.Waits.{IsPushed, HasStarts};

use crate::keys::key_of;
use board_model::Board;
use geo_rect::{NetId, NoMemory, Spot};
use plane_core::Plane;
use plane_set::PlaneSet;
use route_law::Entry;
use std::alloc::Global;
use strip_moves::starts_of;
use wavefront::Queue;

/// Puts all these entries into the queue. There is a target box.
pub fn push_entries(queue: &mut Queue, targets: &[Spot], entries: &[Entry]) -> Result<(), NoMemory>
    requires pushes { queue.old.pushes + 2 ^ 63 ≤ 2 ^ 127 }
    requires target { 0 < length targets.now }
    requires targets { All HasBoundedArea targets.now }
    requires room { All HasRoom entries.now }
    ensures pairs { OnOk result (IsPushed targets.now queue.old.pairs queue.new.pairs entries.now) }
    ensures pushes { OnOk result (queue.new.pushes ≤ queue.old.pushes + 2 ^ 63) }
{
    for n in 0..entries.len() {
        let e = entries[n];
        queue.push(key_of(targets, e), e)?;
    }
    Ok(())
}

/// Puts all starts of the source boxes into the empty queue.
pub fn push_starts<P: Plane>(
    alloc: Global,
    board: &Board,
    planes: &PlaneSet<P>,
    net: NetId,
    sources: &[Spot],
    targets: &[Spot],
    queue: &mut Queue,
) -> Result<(), NoMemory>
    requires planes { HasPlanes board.now.parts planes.now }
    requires net { net.0 < length board.now.parts.net_names }
    requires sources { All (IsBoardBox board.now.parts) sources.now }
    requires target { 0 < length targets.now }
    requires targets { All HasBoundedArea targets.now }
    requires empty { queue.old ≡ record { pairs = []; pushes = 0 } }
    ensures starts { OnOk result (HasStarts (ground_of board.now.parts planes.now net) sources.now targets.now (length sources.now) queue.new.pairs) }
    ensures pushes { OnOk result (queue.new.pushes ≤ 2 ^ 126) }
{
    for n in 0..sources.len() {
        let starts = starts_of(alloc, board, planes, net, n as u64, sources[n])?;
        push_entries(queue, targets, starts.as_slice())?;
    }
    Ok(())
}
