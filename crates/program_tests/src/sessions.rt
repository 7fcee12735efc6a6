//! Sessions: connections from elsewhere, a net routed through another, and rounds of routing.

ghost use Rattle.std.specs.Prelude.{◌≡◌, ◌<◌, ◌≤◌, length, IfOk};

use crate::boards::board_of;
use auto_route::auto;
use auto_route::told::Auto;
use board_model::{Board, Conn, Leg};
use board_parts::Command;
use geo_rect::{LayerId, List, NetId, NoMemory, Node};
use route_law::Routed;
use session_core::{Adopted, Session};
use std::alloc::{AllocError, Global};
use std::process::Abort;
use std::test::Fail;
use strip_merge::StitchedPlane;
use yield_route::{Back, Ripped, Through, through};

/// A net with two pins and a wall between them.
const WALL: &str =
    "board 1 demo 40 20;layer top;class sig;rule top sig 1 2;block top 18 0 22 14;net a sig;pin a 4 9 6 11 top top;pin a 34 9 36 11 top top;end;";

/// A board on which two nets must cross.
const CROSSING: &str =
    "board 1 b 40 20;layer top;class sig;rule top sig 1 2;net a sig;net b sig;pin a 5 8 5 8 top top;pin a 30 8 30 8 top top;pin b 20 2 20 2 top top;pin b 20 17 20 17 top top;end;";

/// A board on which the second net is to be routed first.
const ORDERED: &str =
    "board 1 b 40 20;layer top;class sig;rule top sig 1 2;net a sig;net b sig;pin a 4 10 4 10 top top;pin a 36 10 36 10 top top;pin b 20 7 20 7 top top;pin b 20 14 20 14 top top;end;";

const A: NetId = NetId(0);

const B: NetId = NetId(1);

fn node(x: i32, y: i32) -> Node {
    Node {
        x,
        y,
        layer: LayerId(0),
    }
}

/// A connection between the pins of the board with a wall, over a row above it.
fn over(alloc: Global, row: i32, cost: u128) -> Result<Conn, NoMemory> {
    let mut legs = List::new(alloc);
    legs.push(Leg::Wire(node(6, row)))?;
    legs.push(Leg::Wire(node(34, row)))?;
    legs.push(Leg::Wire(node(34, 11)))?;
    Ok(Conn {
        start: node(6, 11),
        legs,
        cost,
    })
}

/// What a fresh session on the board says of the connections.
fn adopt_on(alloc: Global, board: Board, conns: &[Conn]) -> Result<Adopted, NoMemory>
    requires { 0 < length board.parts.net_names }
{
    let session: Session<StitchedPlane> = Session::start(alloc, board)?;
    let (_, adopted) = session.adopt(alloc, A, conns)?;
    Ok(adopted)
}

/// What a fresh session on the board with a wall says of the connections.
fn adopted(rt: &impl Abort, alloc: Global, conns: &[Conn]) -> Result<Adopted, Fail> {
    let board = board_of(alloc, WALL)?;
    assert!(rt; board.nets() > 0);
    Ok(adopt_on(alloc, board, conns)?)
}

#[test]
fn connections_are_adopted_or_refused_at_a_corner(rt: HostRuntime) -> Result<(), Fail> {
    let alloc = rt.alloc();
    for (row, cost, times, wanted) in [
        (17, 40, 1, Adopted::Kept),
        (16, 38, 1, Adopted::Refused { conn: 0, corner: 2 }),
        (17, 39, 1, Adopted::Refused { conn: 0, corner: 4 }),
        (17, 40, 2, Adopted::Refused { conn: 1, corner: 0 }),
    ] {
        let mut conns = Vec::new(alloc);
        for _time in 0..times {
            conns.push(over(alloc, row, cost)?)?;
        }
        assert_eq!(rt; adopted(&rt, alloc, &conns)?, wanted);
    }
    Ok(())
}

/// A session of the board after the first net was routed.
fn first_routed(alloc: Global, board: Board) -> Result<Session<StitchedPlane>, NoMemory>
    requires { 2 ≤ length board.parts.net_names }
    ensures { IfOk result (λ s. s.parts ≡ board.parts) }
{
    let session: Session<StitchedPlane> = Session::start(alloc, board)?;
    let (routed, _) = session.apply(alloc, &Command::Route(A))?;
    Ok(routed)
}

/// What was removed, what was made and what came back.
fn told_of(told: &Through) -> Option<(Ripped, u128, Back)> {
    let ripped = told.ripped.as_slice().first()?;
    let back = told.back.as_slice().first()?;
    Some((*ripped, cost_of(&told.routed), *back))
}

/// The same where the second net is routed through the first.
fn routed_through(
    alloc: Global,
    session: Session<StitchedPlane>,
) -> Result<Option<(Ripped, u128, Back)>, NoMemory>
    requires { 2 ≤ length session.parts.net_names }
{
    let (_, told) = through(alloc, session, B, &[A])?;
    Ok(told_of(&told))
}

/// The same on this board, after the first net was routed.
fn through_on(alloc: Global, board: Board) -> Result<Option<(Ripped, u128, Back)>, NoMemory>
    requires { 2 ≤ length board.parts.net_names }
{
    let session = first_routed(alloc, board)?;
    routed_through(alloc, session)
}

/// The cost of what was made of a net.
fn cost_of(routed: &Routed) -> u128 {
    let mut cost = 0_u128;
    for made in routed.made.as_slice() {
        cost = cost.saturating_add(made.conn.cost);
    }
    cost
}

#[test]
fn a_net_goes_through_another(rt: HostRuntime) -> Result<(), Fail> {
    let board = board_of(rt.alloc(), CROSSING)?;
    assert!(rt; board.nets() >= 2);
    let told = through_on(rt.alloc(), board)?;
    assert_eq!(rt;
        told,
        Some((Ripped { net: A, count: 1 }, 15, Back::Out(A, 1)))
    );
    Ok(())
}

/// The number of the best round, and what the nets cost in it, in the order of that round.
fn best_of(alloc: Global, told: &Auto) -> Result<(u32, Vec<u128>), AllocError>
    requires from { 1 ≤ told.now.best }
    requires to { told.now.best ≤ length told.now.rounds }
{
    let mut costs = Vec::new(alloc);
    for routed in told.best_round() {
        costs.push(cost_of(routed))?;
    }
    Ok((told.best, costs))
}

/// The same of two rounds on the board.
fn best_of_two(alloc: Global, board: Board) -> Result<(u32, Vec<u128>), Fail> {
    let session: Session<StitchedPlane> = Session::start(alloc, board)?;
    let (_, told) = auto(alloc, session, 2)?;
    Ok(best_of(alloc, &told)?)
}

#[test]
fn the_second_round_is_better(rt: HostRuntime) -> Result<(), Fail> {
    let board = board_of(rt.alloc(), ORDERED)?;
    let (best, costs) = best_of_two(rt.alloc(), board)?;
    assert_eq!(rt; best, 2);
    assert_eq!(rt; costs.as_slice(), [7, 46].as_slice());
    Ok(())
}
