ghost use Rattle.std.specs.Prelude.{◌≡◌, OnOk};
ghost use Rattle.geo_rect.specs.Plane.{LiesIn};
ghost use Rattle.strip_moves.specs.Departures.{IsOnLargestBoard, IsOpen};
ghost use Rattle.strip_moves.specs.Gains.{Gains};
ghost use Rattle.strip_moves.specs.Ways.{IsJumpInto, IsJumpWithin, IsJumpThrough, IsJump};

use crate::departures::Departure;
use crate::labels::admits;
use geo_rect::{List, NoMemory, Rect, meet};
use plane_core::{Plane, Strip};
use route_law::Entry;
use std::alloc::Global;

/// Adds what comes into the strips of `plane` through the strips of `vias`, the plane of a kind of via.
pub fn push_jumps<P: Plane>(
    alloc: Global,
    vias: &P,
    plane: &P,
    moves: &mut List<Entry>,
    d: Departure,
) -> Result<(), NoMemory>
    requires open { IsOpen d }
    requires inside { LiesIn d.from.strip (P.region vias.now) }
    requires same { P.region vias.now ≡ P.region plane.now }
    ensures { OnOk result (Gains moves.old moves.new d.origin (IsJump (P.strips vias.now) (P.strips plane.now) d)) }
{
    let found = vias.strips_in(alloc, d.from.strip)?;
    for w in found.as_slice() {
        push_jumps_through(alloc, plane, moves, d, *w)?;
    }
    Ok(())
}

/// Adds what comes into the strips of the plane through the via strip `w`, if the net may pass it.
fn push_jumps_through<P: Plane>(
    alloc: Global,
    plane: &P,
    moves: &mut List<Entry>,
    d: Departure,
    w: Strip,
) -> Result<(), NoMemory>
    requires open { IsOpen d }
    requires inside { LiesIn d.from.strip (P.region plane.now) }
    ensures { OnOk result (Gains moves.old moves.new d.origin (IsJumpThrough (P.strips plane.now) d w)) }
{
    if !admits(w.label, d.net) {
        return Ok(());
    }
    match meet(d.from.strip, w.area) {
        None => Ok(()),
        Some(part) => push_jumps_within(alloc, plane, moves, d, part),
    }
}

/// Adds what comes into the strips of the plane through what they have of `part`, which lies in the
/// strip that the net leaves.
fn push_jumps_within<P: Plane>(
    alloc: Global,
    plane: &P,
    moves: &mut List<Entry>,
    d: Departure,
    part: Rect,
) -> Result<(), NoMemory>
    requires open { IsOpen d }
    requires inside { LiesIn part (P.region plane.now) }
    requires area { IsOnLargestBoard part }
    ensures { OnOk result (Gains moves.old moves.new d.origin (IsJumpWithin (P.strips plane.now) d part)) }
{
    let found = plane.strips_in(alloc, part)?;
    for u in found.as_slice() {
        push_jump(moves, d, part, *u)?;
    }
    Ok(())
}

/// Adds what comes into `u` through what it has of `part`, if the net may pass it.
fn push_jump(moves: &mut List<Entry>, d: Departure, part: Rect, u: Strip) -> Result<(), NoMemory>
    requires open { IsOpen d }
    requires area { IsOnLargestBoard part }
    ensures { OnOk result (Gains moves.old moves.new d.origin (IsJumpInto d part u)) }
{
    if !admits(u.label, d.net) {
        return Ok(());
    }
    match meet(part, u.area) {
        None => Ok(()),
        Some(door) => d.push_through(moves, u.area, door),
    }
}
