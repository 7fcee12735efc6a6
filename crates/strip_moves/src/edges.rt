ghost use Rattle.std.specs.Prelude.{◌≡◌, Contains, OnOk};
ghost use Rattle.geo_rect.specs.Plane.{HasPoint, ShareNoPoint};
ghost use Rattle.plane_core.specs.Labels.{IsPlane};
ghost use Rattle.route_law.specs.Ground.{IsPassableStrip};
ghost use Rattle.strip_moves.specs.Departures.{IsOnLargestBoard, IsOpen};
ghost use Rattle.strip_moves.specs.Gains.{Gains};
ghost use Rattle.strip_moves.specs.Ways.{IsStepInto, IsStepOnSide, IsStepAway};

use crate::departures::Departure;
use crate::labels::admits;
use geo_rect::{List, NoMemory, Point, Rect, edge};
use plane_core::{Plane, Side, Strip};
use route_law::Entry;
use std::alloc::Global;

/// Adds what comes over the edges of all strips of the plane that border on the one that the net leaves.
pub fn push_steps<P: Plane>(
    alloc: Global,
    plane: &P,
    moves: &mut List<Entry>,
    d: Departure,
) -> Result<(), NoMemory>
    requires canonical { IsPlane (P.region plane.now) (P.strips plane.now) }
    requires region { IsOnLargestBoard (P.region plane.now) }
    requires open { IsOpen d }
    requires passable { IsPassableStrip (P.strips plane.now) d.net d.from.strip }
    ensures { OnOk result (Gains moves.old moves.new d.origin (IsStepAway (P.strips plane.now) d)) }
{
    let t = old_strip(plane, d);
    push_steps_on_side(alloc, plane, moves, d, t, Side::Left)?;
    push_steps_on_side(alloc, plane, moves, d, t, Side::Below)?;
    push_steps_on_side(alloc, plane, moves, d, t, Side::Right)?;
    push_steps_on_side(alloc, plane, moves, d, t, Side::Above)
}

/// The strip of the plane that the net leaves.
fn old_strip<P: Plane>(plane: &P, d: Departure) -> Strip
    requires canonical { IsPlane (P.region plane.now) (P.strips plane.now) }
    requires passable { IsPassableStrip (P.strips plane.now) d.net d.from.strip }
    ensures listed { Contains (P.strips plane.now) result }
    ensures same { result.area ≡ d.from.strip }
{
    plane.strip_at(corner(d.from.strip))
}

/// The lower left point of a rectangle.
fn corner(r: Rect) -> Point
    ensures { HasPoint r result }
{
    Point { x: r.x0, y: r.y0 }
}

/// Adds what comes over the edges of the strips on one side of `t`, the one that the net leaves.
fn push_steps_on_side<P: Plane>(
    alloc: Global,
    plane: &P,
    moves: &mut List<Entry>,
    d: Departure,
    t: Strip,
    side: Side,
) -> Result<(), NoMemory>
    requires canonical { IsPlane (P.region plane.now) (P.strips plane.now) }
    requires region { IsOnLargestBoard (P.region plane.now) }
    requires open { IsOpen d }
    requires listed { Contains (P.strips plane.now) t }
    requires same { t.area ≡ d.from.strip }
    ensures { OnOk result (Gains moves.old moves.new d.origin (IsStepOnSide (P.strips plane.now) side d)) }
{
    let found = plane.beside(alloc, t, side)?;
    for u in found.as_slice() {
        push_step(moves, d, *u)?;
    }
    Ok(())
}

/// Adds what comes over the edge of `u`, if the net may pass it.
fn push_step(moves: &mut List<Entry>, d: Departure, u: Strip) -> Result<(), NoMemory>
    requires open { IsOpen d }
    requires area { IsOnLargestBoard u.area }
    requires separate { ShareNoPoint d.from.strip u.area }
    ensures { OnOk result (Gains moves.old moves.new d.origin (IsStepInto d u)) }
{
    if !admits(u.label, d.net) {
        return Ok(());
    }
    match edge(d.from.strip, u.area) {
        None => Ok(()),
        Some(door) => d.push_through(moves, u.area, door),
    }
}
