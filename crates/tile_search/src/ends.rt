//! Where a settled front comes to a target box.
ghost use Rattle.std.specs.Prelude.{◌≡◌, ◌+◌, ◌^◌, ◌<◌};
ghost use Rattle.geo_rect.specs.Plane.{HasPoint, IsBounded};
ghost use Rattle.board_model.specs.Shapes.{place_of};
ghost use Rattle.tile_search.specs.Goals.{IsCheapest, IsLeastGoal, IsGoalIn, IsGoalAt, IsGoalOf};

use crate::goals::{Goal, cheaper};
use geo_rect::{LayerId, Node, Rect, Spot, clamp, dist, meet};
use route_law::Entry;

/// The lower left node of a rectangle of the layer.
fn corner(r: Rect, layer: LayerId) -> Node
    ensures place { HasPoint r (place_of result) }
    ensures layer { result.layer ≡ layer }
{
    Node {
        x: r.x0,
        y: r.y0,
        layer,
    }
}

/// The cheapest node of `common`, a part of its strip, that the entry of this number comes to.
fn goal_in(common: Rect, number: u64, e: Entry) -> Goal
    requires part { IsBounded common }
    requires front { IsBounded e.front }
    requires cost { e.cost + 2 ^ 27 < 2 ^ 128 }
    ensures { IsCheapest (IsGoalIn common number e) result }
{
    let way = dist(e.front, common);
    Goal {
        cost: e.cost + u128::from(way),
        entry: number,
        end: corner(clamp(e.front, common), e.layer),
    }
}

/// The cheapest node of the target box that the entry of this number comes to within its strip; `None`
/// where the box is on another layer, or the entry's strip has no point of it.
fn goal_at(target: Spot, number: u64, e: Entry) -> Option<Goal>
    requires strip { IsBounded e.strip }
    requires front { IsBounded e.front }
    requires cost { e.cost + 2 ^ 27 < 2 ^ 128 }
    ensures { IsLeastGoal (IsGoalAt target number e) result }
{
    if target.layer.0 != e.layer.0 {
        return None;
    }
    match meet(e.strip, target.area) {
        None => None,
        Some(common) => Some(goal_in(common, number, e)),
    }
}

/// The cheapest node of a target box that the entry of this number comes to within its strip.
pub fn goal_of(targets: &[Spot], number: u64, e: Entry) -> Option<Goal>
    requires strip { IsBounded e.strip }
    requires front { IsBounded e.front }
    requires cost { e.cost + 2 ^ 27 < 2 ^ 128 }
    ensures { IsLeastGoal (IsGoalOf targets.now number e) result }
{
    let mut least = None;
    for target in targets {
        least = cheaper(least, goal_at(*target, number, e));
    }
    least
}
