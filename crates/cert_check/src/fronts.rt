//! Fronts that move on, cover others, or come near a target.
ghost use Rattle.std.specs.Prelude.{◌≡◌, ◌+◌, ◌≤◌, ◌↔◌, IsTrue};
ghost use Rattle.geo_rect.specs.Plane.{IsBounded};
ghost use Rattle.route_law.specs.Moves.{arrival_of};
ghost use Rattle.cert_check.specs.Fronts.{IsMoved, ComesBefore, IsFarFrom};

use crate::rects::is_clamped;
use geo_rect::{Rect, Spot, dist, reach, same_rect};
use route_law::Entry;

/// Whether `new` is `more` above `old`.
fn is_more_by(old: u128, more: u128, new: u128) -> bool
    ensures { IsTrue result ↔ (new ≡ old + more) }
{
    if new < old {
        return false;
    }
    new - old == more
}

/// Whether `cost` and `way` together are at most `limit`.
fn is_within(cost: u128, way: u64, limit: u128) -> bool
    ensures { IsTrue result ↔ (cost + way ≤ limit) }
{
    if cost > limit {
        return false;
    }
    u128::from(way) <= limit - cost
}

/// Whether `cost` and `way` together are at least `limit`.
fn is_late(cost: u128, way: u64, limit: u128) -> bool
    ensures { IsTrue result ↔ (limit ≤ cost + way) }
{
    if limit <= cost {
        return true;
    }
    limit - cost <= u128::from(way)
}

/// Whether `to` has the front of `from` moved through the door, at the cost of the way and the
/// charge.
pub fn is_moved(from: Entry, door: Rect, charge: u32, to: Entry) -> bool
    requires front { IsBounded from.front }
    requires door { IsBounded door }
    ensures { IsTrue result ↔ IsMoved (arrival_of from) door charge (arrival_of to) }
{
    if !is_clamped(from.front, door, to.front) {
        return false;
    }
    let way = dist(from.front, door) + u64::from(charge);
    is_more_by(from.cost, u128::from(way), to.cost)
}

/// Whether the entry comes to each point of the arrival's front, in the same strip, at no more than
/// its cost.
pub fn comes_before(e: Entry, arrival: Entry) -> bool
    requires first { IsBounded e.front }
    requires second { IsBounded arrival.front }
    ensures { IsTrue result ↔ ComesBefore e (arrival_of arrival) }
{
    if e.layer.0 != arrival.layer.0 {
        return false;
    }
    if !same_rect(e.strip, arrival.strip) {
        return false;
    }
    is_within(e.cost, reach(e.front, arrival.front), arrival.cost)
}

/// Whether the arrival's cost and the distance to the target box are together `d` or more.
pub fn is_far_from(d: u128, arrival: Entry, target: Spot) -> bool
    requires front { IsBounded arrival.front }
    requires target { IsBounded target.area }
    ensures { IsTrue result ↔ IsFarFrom d (arrival_of arrival) target }
{
    is_late(arrival.cost, dist(arrival.front, target.area), d)
}
