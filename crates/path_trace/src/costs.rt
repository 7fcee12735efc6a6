//! What legs cost, in micrometres of wire.

ghost use Rattle.std.specs.Prelude.{◌≡◌, ◌≤◌, ◌^◌};
ghost use Rattle.geo_rect.specs.declared.ids.NetId.{NetId as Net};
ghost use Rattle.geo_rect.specs.Distance.{apart};
ghost use Rattle.geo_rect.specs.Line.{between};
ghost use Rattle.board_model.specs.Shapes.{place_of};
ghost use Rattle.board_model.specs.WellFormed.{IsCoordinate, IsPlace, IsStep, AreSteps};
ghost use Rattle.plane_set.specs.Standing.{PlaneTable};
ghost use Rattle.route_law.specs.Connections.{cost_of_leg, cost_of_legs};
ghost use Rattle.strip_moves.specs.Grounds.{ground_of};

use board_model::{Board, Leg};
use geo_rect::Node;

/// How far two coordinates are apart.
fn between(u: i32, v: i32) -> u32
    requires first { IsCoordinate u }
    requires second { IsCoordinate v }
    ensures exact { result ≡ between u v }
    ensures small { result ≤ 2 ^ 25 }
{
    (u - v).unsigned_abs()
}

/// The number of unit steps from one node to another.
fn apart(from: Node, to: Node) -> u32
    requires from { IsPlace (place_of from) }
    requires to { IsPlace (place_of to) }
    ensures exact { result ≡ apart (place_of from) (place_of to) }
    ensures small { result ≤ 2 ^ 26 }
{
    between(from.x, to.x) + between(from.y, to.y)
}

/// What a leg costs.
fn cost_of_leg(board: &Board, from: Node, leg: Leg) -> u32
    requires from { IsPlace (place_of from) }
    requires step { IsStep board.now.parts from leg }
    ensures exact { (set : PlaneTable) (n : Net) → result ≡ cost_of_leg (ground_of board.now.parts set n) from leg }
    ensures small { result ≤ 2 ^ 26 }
{
    match leg {
        Leg::Wire(to) => apart(from, to),
        Leg::Via(kind, _) => board.kind(kind).charge,
    }
}

/// What legs cost together of which the first starts in this node.
pub fn cost_of(board: &Board, start: Node, legs: &[Leg]) -> u128
    requires place { IsPlace (place_of start) }
    requires steps { AreSteps board.now.parts start legs.now }
    ensures { (set : PlaneTable) (n : Net) → result ≡ cost_of_legs (ground_of board.now.parts set n) start legs.now }
{
    let mut from = start;
    let mut cost = 0;
    for leg in legs {
        cost += u128::from(cost_of_leg(board, from, *leg));
        from = leg.end();
    }
    cost
}
