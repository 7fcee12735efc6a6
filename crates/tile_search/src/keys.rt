//! The key under which a front waits.
ghost use Rattle.std.specs.Prelude.{◌^◌, ◌<◌, ◌≤◌, length, All};
ghost use Rattle.geo_rect.specs.Plane.{IsBounded};
ghost use Rattle.route_law.specs.Covers.{IsLow};
ghost use Rattle.strip_moves.specs.Boxes.{HasBoundedArea};
ghost use Rattle.tile_search.specs.Keys.{HasRoom, IsKey};

use geo_rect::{Rect, Spot, dist};
use route_law::Entry;

/// The least distance from the front to a target box, over all layers. There is a target box.
fn low_of(targets: &[Spot], front: Rect) -> u64
    requires target { 0 < length targets.now }
    requires targets { All HasBoundedArea targets.now }
    requires front { IsBounded front }
    ensures exact { IsLow targets.now front result }
    ensures small { result ≤ 2 ^ 27 }
{
    let nearest = targets[0];
    let mut low = dist(front, nearest.area);
    for target in targets {
        low = low.min(dist(front, target.area));
    }
    low
}

/// What the entry costs and the least distance from its front to a target box, together. There is a
/// target box.
pub fn key_of(targets: &[Spot], e: Entry) -> u128
    requires target { 0 < length targets.now }
    requires targets { All HasBoundedArea targets.now }
    requires room { HasRoom e }
    ensures { IsKey targets.now e result }
{
    e.cost + u128::from(low_of(targets, e.front))
}
