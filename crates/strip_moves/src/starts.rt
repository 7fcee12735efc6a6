ghost use Rattle.std.specs.Prelude.{◌<◌, length, All, IfOk, OnOk};
ghost use Rattle.geo_rect.specs.Plane.{LiesIn};
ghost use Rattle.plane_set.specs.Standing.{HasPlanes};
ghost use Rattle.route_law.specs.declared.certs.Origin.TheVariants.{Source};
ghost use Rattle.route_law.specs.Moves.{Arrival};
ghost use Rattle.route_law.specs.Right.{IsStart};
ghost use Rattle.strip_moves.specs.Boxes.{IsBoardBox};
ghost use Rattle.strip_moves.specs.Gains.{Gains};
ghost use Rattle.strip_moves.specs.Grounds.{ground_of};
ghost use Rattle.strip_moves.specs.Listed.{HasArrival, IsStartFrom};
ghost use Rattle.strip_moves.specs.Ways.{IsStartIn, IsStartAmong};

use crate::labels::admits;
use crate::net_planes::wires_of;
use board_model::Board;
use geo_rect::{List, NetId, NoMemory, Spot, meet};
use plane_core::{Plane, Strip};
use plane_set::PlaneSet;
use route_law::{Entry, Origin};
use std::alloc::Global;

/// The starts of the source box of this number: what each strip of its layer that the net may pass
/// has of it.
pub fn starts_of<P: Plane>(
    alloc: Global,
    board: &Board,
    planes: &PlaneSet<P>,
    net: NetId,
    number: u64,
    source: Spot,
) -> Result<List<Entry>, NoMemory>
    requires planes { HasPlanes board.now.parts planes.now }
    requires net { net.0 < length board.now.parts.net_names }
    requires source { IsBoardBox board.now.parts source }
    ensures each { IfOk result (λ entries. All (IsStartFrom (ground_of board.now.parts planes.now net) source number) entries) }
    ensures all { IfOk result (λ entries. (a : Arrival) → IsStart (ground_of board.now.parts planes.now net) source a
        → HasArrival entries (Source number) a) }
{
    let mut starts = List::new(alloc);
    let plane = wires_of(board, planes, net, source.layer);
    push_starts(alloc, plane, &mut starts, net, number, source)?;
    Ok(starts)
}

/// Adds what the strips of the plane that the net may pass have of the source box.
fn push_starts<P: Plane>(
    alloc: Global,
    plane: &P,
    starts: &mut List<Entry>,
    net: NetId,
    number: u64,
    source: Spot,
) -> Result<(), NoMemory>
    requires { LiesIn source.area (P.region plane.now) }
    ensures { OnOk result (Gains starts.old starts.new (Source number) (IsStartAmong (P.strips plane.now) source net)) }
{
    let found = plane.strips_in(alloc, source.area)?;
    for u in found.as_slice() {
        push_start(starts, net, number, source, *u)?;
    }
    Ok(())
}

/// Adds what the strip `u` of the layer of the source box has of it, if the net may pass `u`.
fn push_start(
    starts: &mut List<Entry>,
    net: NetId,
    number: u64,
    source: Spot,
    u: Strip,
) -> Result<(), NoMemory>
    ensures { OnOk result (Gains starts.old starts.new (Source number) (IsStartIn source net u)) }
{
    if !admits(u.label, net) {
        return Ok(());
    }
    let Some(front) = meet(u.area, source.area) else {
        return Ok(());
    };
    let start = Entry {
        layer: source.layer,
        strip: u.area,
        front,
        cost: 0,
        origin: Origin::Source(number),
    };
    starts.push(start)
}
