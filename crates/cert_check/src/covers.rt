//! Whether arrivals are covered.
ghost use Rattle.std.specs.Prelude.{◌<◌, ◌↔◌, length, All, Contains, IsTrue};
ghost use Rattle.geo_rect.specs.declared.ids.Spot.{Spot as Target};
ghost use Rattle.geo_rect.specs.Plane.{IsBounded};
ghost use Rattle.route_law.specs.declared.certs.Entry.{Entry as Item};
ghost use Rattle.route_law.specs.Covers.{IsReachedBefore, IsTooLate, IsCovered};
ghost use Rattle.route_law.specs.Moves.{arrival_of};
ghost use Rattle.strip_moves.specs.Boxes.{HasBoundedArea};
ghost use Rattle.cert_check.specs.Fronts.{HasBoundedFront};

use crate::fronts::{comes_before, is_far_from};
use geo_rect::Spot;
use route_law::{Cert, Entry};

/// Whether an entry of the same strip comes to each point of the arrival's front at no more than its
/// cost.
fn is_reached_before(entries: &[Entry], arrival: Entry) -> bool
    requires entries { All HasBoundedFront entries.now }
    requires front { IsBounded arrival.front }
    ensures { IsTrue result ↔ IsReachedBefore entries.now (arrival_of arrival) }
{
    for e in entries {
        if comes_before(*e, arrival) {
            return true;
        }
    }
    false
}

/// Whether the arrival's cost and the least distance to a target box are together `d` or more.
fn is_too_late(targets: &[Spot], d: u128, arrival: Entry) -> bool
    requires some { 0 < length targets.now }
    requires targets { All HasBoundedArea targets.now }
    requires front { IsBounded arrival.front }
    ensures { IsTrue result ↔ IsTooLate targets.now d (arrival_of arrival) }
{
    for target in targets {
        if !is_far_from(d, arrival, *target) {
            return false;
        }
    }
    true
}

/// Whether an entry of the same strip is as good as the arrival, or the bound is.
fn is_covered(targets: &[Spot], cert: &Cert, arrival: Entry) -> bool
    requires some { 0 < length targets.now }
    requires targets { All HasBoundedArea targets.now }
    requires entries { All HasBoundedFront cert.now.entries }
    requires front { IsBounded arrival.front }
    ensures { IsTrue result ↔ IsCovered targets.now cert.now (arrival_of arrival) }
{
    if is_reached_before(cert.entries.as_slice(), arrival) {
        return true;
    }
    match cert.bound {
        None => false,
        Some(d) => is_too_late(targets, d, arrival),
    }
}

/// Whether each of the arrivals is covered.
pub fn are_covered(targets: &[Spot], cert: &Cert, arrivals: &[Entry]) -> bool
    requires some { 0 < length targets.now }
    requires targets { All HasBoundedArea targets.now }
    requires entries { All HasBoundedFront cert.now.entries }
    requires arrivals { All HasBoundedFront arrivals.now }
    ensures { IsTrue result ↔ All (λ e. IsCovered targets.now cert.now (arrival_of e)) arrivals.now }
{
    for arrival in arrivals {
        if !is_covered(targets, cert, *arrival) {
            return false;
        }
    }
    true
}
