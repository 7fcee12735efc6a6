//! Certificates by hand, and what the checker says of them.

ghost use Rattle.std.specs.Prelude.{IfSome, IsTrue};
ghost use Rattle.std.specs.Option.{option_copied};
ghost use Rattle.walk_check.specs.Corners.{HasPlaces};

use crate::boards::on_board;
use crate::places::{are_on_board, has_places};
use board_model::{Board, Conn, Leg};
use cert_check::{Verdict, Why, check};
use flat_plane::FlatPlane;
use geo_rect::{LayerId, List, NetId, NoMemory, Node, Rect, Spot};
use plane_core::Plane;
use plane_set::PlaneSet;
use route_law::{Cert, Entry, Origin};
use std::alloc::Global;
use std::process::Abort;
use std::test::Fail;

const TOP: LayerId = LayerId(0);

/// One net with two pins, and between them a wall that leaves a gap.
const OPEN: &str =
    "board 1 wall 40 20;layer top;class thin;rule top thin 1 2;block top 18 0 22 14;net a thin;pin a 4 9 6 11 top top;pin a 34 9 36 11 top top;end;";

/// The same with a wall up to the edge.
const SHUT: &str =
    "board 1 wall 40 20;layer top;class thin;rule top thin 1 2;block top 18 0 22 17;net a thin;pin a 4 9 6 11 top top;pin a 34 9 36 11 top top;end;";

fn left_pin() -> Rect {
    Rect::new(4, 9, 6, 11)
}

fn right_pin() -> Rect {
    Rect::new(34, 9, 36, 11)
}

fn all_places(conn: Option<&Conn>) -> bool
    ensures { IsTrue result → IfSome (option_copied conn.entry) HasPlaces }
{
    match conn {
        None => true,
        Some(conn) => has_places(conn),
    }
}

/// The verdict on the board, from the left pin to the right one.
fn verdict<P: Plane>(
    rt: &impl Abort,
    alloc: Global,
    board: &Board,
    conn: Option<&Conn>,
    cert: &Cert,
) -> Result<Verdict, NoMemory> {
    let planes: PlaneSet<P> = PlaneSet::build(alloc, board)?;
    let sources = [Spot {
        layer: TOP,
        area: left_pin(),
    }];
    let targets = [Spot {
        layer: TOP,
        area: right_pin(),
    }];
    assert!(rt; board.nets() > 0);
    assert!(rt; are_on_board(board, &sources));
    assert!(rt; are_on_board(board, &targets));
    assert!(rt; all_places(conn));
    check(
        alloc,
        board,
        &planes,
        NetId(0),
        &sources,
        &targets,
        conn,
        cert,
    )
}

fn entry(origin: Origin, strip: Rect, front: Rect, cost: u128) -> Entry {
    Entry {
        layer: TOP,
        strip,
        front,
        cost,
        origin,
    }
}

/// The start, and the steps to the right, below and above, into this strip.
fn push_near(entries: &mut List<Entry>, above: Rect) -> Result<(), NoMemory> {
    let step = Origin::Step(0);
    entries.push(entry(Origin::Source(0), Rect::new(2, 7, 8, 13), left_pin(), 0))?;
    entries.push(entry(step, Rect::new(9, 7, 15, 13), Rect::new(9, 9, 9, 11), 3))?;
    entries.push(entry(step, Rect::new(1, 1, 15, 6), Rect::new(4, 6, 6, 6), 3))?;
    entries.push(entry(step, above, Rect::new(4, 14, 6, 14), 3))
}

/// The step to the left of the start.
fn push_left(entries: &mut List<Entry>) -> Result<(), NoMemory> {
    entries.push(entry(
        Origin::Step(0),
        Rect::new(1, 7, 1, 13),
        Rect::new(1, 9, 1, 11),
        3,
    ))
}

/// The way over the wall.
fn push_over(entries: &mut List<Entry>) -> Result<(), NoMemory> {
    entries.push(entry(
        Origin::Step(3),
        Rect::new(1, 17, 39, 19),
        Rect::new(4, 17, 6, 17),
        6,
    ))?;
    entries.push(entry(
        Origin::Step(5),
        Rect::new(25, 14, 39, 16),
        Rect::new(25, 16, 25, 16),
        26,
    ))
}

/// The strip of the target.
fn push_last(entries: &mut List<Entry>) -> Result<(), NoMemory> {
    entries.push(entry(
        Origin::Step(6),
        Rect::new(32, 7, 38, 13),
        Rect::new(32, 13, 32, 13),
        36,
    ))
}

/// The way over the wall as far as the strip before the target's.
fn way_over(alloc: Global) -> Result<List<Entry>, NoMemory> {
    let mut entries = List::new(alloc);
    push_near(&mut entries, Rect::new(1, 14, 15, 16))?;
    push_left(&mut entries)?;
    push_over(&mut entries)?;
    Ok(entries)
}

/// The wire over the wall.
fn wire_over(alloc: Global) -> Result<Conn, NoMemory> {
    let mut legs = List::new(alloc);
    for (x, y) in [(6, 17), (34, 17), (34, 11)] {
        legs.push(Leg::Wire(Node { x, y, layer: TOP }))?;
    }
    let start = Node {
        x: 6,
        y: 11,
        layer: TOP,
    };
    Ok(Conn {
        start,
        legs,
        cost: 40,
    })
}

fn expect_least<P: Plane>(rt: &impl Abort, alloc: Global, board: &Board) -> Result<(), Fail> {
    let mut entries = way_over(alloc)?;
    push_last(&mut entries)?;
    let cert = Cert {
        bound: Some(40),
        entries,
    };
    let conn = wire_over(alloc)?;
    let found = verdict::<P>(rt, alloc, board, Some(&conn), &cert)?;
    assert_eq!(rt; found, Verdict::Yes);
    Ok(())
}

#[test]
fn the_way_over_a_wall_is_least(rt: HostRuntime) -> Result<(), Fail> {
    on_board(
        rt.alloc(),
        OPEN,
        &|board: &Board| expect_least::<FlatPlane>(&rt, rt.alloc(), board),
    )
}

/// Without the target's strip, and with this bound.
fn expect_fault<P: Plane>(
    rt: &impl Abort,
    alloc: Global,
    board: &Board,
    bound: u128,
    fault: Verdict,
) -> Result<(), NoMemory> {
    let cert = Cert {
        bound: Some(bound),
        entries: way_over(alloc)?,
    };
    let conn = wire_over(alloc)?;
    let found = verdict::<P>(rt, alloc, board, Some(&conn), &cert)?;
    assert_eq!(rt; found, fault);
    Ok(())
}

/// A bound needs an end, and a move below the bound is covered.
fn expect_faults<P: Plane>(rt: &impl Abort, alloc: Global, board: &Board) -> Result<(), Fail> {
    for (bound, entry, why) in [(40, 0, Why::Bound), (41, 6, Why::Cover)] {
        let fault = Verdict::No { entry, why };
        expect_fault::<P>(rt, alloc, board, bound, fault)?;
    }
    Ok(())
}

#[test]
fn a_bound_that_is_not_reached_is_refused(rt: HostRuntime) -> Result<(), Fail> {
    on_board(
        rt.alloc(),
        OPEN,
        &|board: &Board| expect_faults::<FlatPlane>(&rt, rt.alloc(), board),
    )
}

fn expect_none<P: Plane>(rt: &impl Abort, alloc: Global, board: &Board) -> Result<(), Fail> {
    let mut entries = List::new(alloc);
    push_near(&mut entries, Rect::new(1, 14, 15, 19))?;
    let mut cert = Cert {
        bound: None,
        entries,
    };
    let open = verdict::<P>(rt, alloc, board, None, &cert)?;
    let fault = Verdict::No {
        entry: 0,
        why: Why::Cover,
    };
    assert_eq!(rt; open, fault);
    push_left(&mut cert.entries)?;
    let closed = verdict::<P>(rt, alloc, board, None, &cert)?;
    assert_eq!(rt; closed, Verdict::Yes);
    Ok(())
}

#[test]
fn a_wall_up_to_the_edge_leaves_no_way(rt: HostRuntime) -> Result<(), Fail> {
    on_board(
        rt.alloc(),
        SHUT,
        &|board: &Board| expect_none::<FlatPlane>(&rt, rt.alloc(), board),
    )
}
