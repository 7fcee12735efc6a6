//! The bound of a certificate: what its cheapest end costs.
ghost use Rattle.std.specs.Prelude.{◌≡◌, ◌↔◌, All, IsTrue};
ghost use Rattle.route_law.specs.Right.{IsEnd, IsBoundOf};
ghost use Rattle.cert_check.specs.Bounds.{IsLeastOf, IsEndAt, IsSomeEnd, lesser_of};
ghost use Rattle.cert_check.specs.Fronts.{IsBoundedEntry, HasSmallCost};

use geo_rect::{Spot, dist, meet};
use route_law::{Cert, Entry};

/// The lesser of two numbers, of which one or both may be absent.
fn lesser(a: Option<u128>, b: Option<u128>) -> Option<u128>
    ensures { result ≡ lesser_of a b }
{
    match (a, b) {
        (None, b) => b,
        (Some(m), None) => Some(m),
        (Some(m), Some(n)) => Some(m.min(n)),
    }
}

/// Whether both are absent, or both are the same number.
fn same_number(a: Option<u128>, b: Option<u128>) -> bool
    ensures { IsTrue result ↔ (a ≡ b) }
{
    match (a, b) {
        (None, None) => true,
        (Some(m), Some(n)) => m == n,
        _ => false,
    }
}

/// What it costs in all to come from the entry to the target box; `None` where the box is on another
/// layer, or the entry's strip has no point of it.
fn end_at(target: Spot, e: Entry) -> Option<u128>
    requires entry { IsBoundedEntry e }
    requires cost { HasSmallCost e }
    ensures { IsLeastOf (IsEndAt target e) result }
{
    if target.layer.0 != e.layer.0 {
        return None;
    }
    let common = meet(e.strip, target.area)?;
    Some(e.cost + u128::from(dist(e.front, common)))
}

/// What it costs at least to come from the entry to a target box in its strip.
fn end_of(targets: &[Spot], e: Entry) -> Option<u128>
    requires entry { IsBoundedEntry e }
    requires cost { HasSmallCost e }
    ensures { IsLeastOf (IsEnd targets.now e) result }
{
    let mut least = None;
    for target in targets {
        least = lesser(least, end_at(*target, e));
    }
    least
}

/// What the cheapest end of the entries costs; `None` where there is no end.
fn least_end(targets: &[Spot], entries: &[Entry]) -> Option<u128>
    requires bounded { All IsBoundedEntry entries.now }
    requires costs { All HasSmallCost entries.now }
    ensures { IsLeastOf (IsSomeEnd targets.now entries.now) result }
{
    let mut least = None;
    for e in entries {
        least = lesser(least, end_of(targets, *e));
    }
    least
}

/// Whether the certificate's bound is what the cheapest end costs, and there is none where there is
/// no end.
pub fn is_bound(targets: &[Spot], cert: &Cert) -> bool
    requires bounded { All IsBoundedEntry cert.now.entries }
    requires costs { All HasSmallCost cert.now.entries }
    ensures { IsTrue result ↔ IsBoundOf targets.now cert.now.entries cert.now.bound }
{
    same_number(least_end(targets, cert.entries.as_slice()), cert.bound)
}
