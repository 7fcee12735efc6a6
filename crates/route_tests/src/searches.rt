//! What the search finds, with the checker's verdict on it.

ghost use Rattle.std.specs.Prelude.{◌<◌, ◌≡◌, length, slice_get, All, Some};
ghost use Rattle.path_trace.specs.Strips.{IsInStripOf};
ghost use Rattle.plane_set.specs.Standing.{HasPlanes};
ghost use Rattle.route_law.specs.declared.certs.Entry.{Entry as CertEntry};
ghost use Rattle.route_law.specs.Right.{IsRight};
ghost use Rattle.strip_moves.specs.Boxes.{IsBoardBox};
ghost use Rattle.strip_moves.specs.Grounds.{ground_of};
ghost use Rattle.tile_search.specs.Answers.{HasRightPath, HasPathEnd};

use crate::boards::on_board;
use crate::places::{are_on_board, has_places};
use board_model::Board;
use cert_check::{Verdict, check};
use flat_plane::FlatPlane;
use geo_rect::{LayerId, NetId, NoMemory, Node, Rect, Spot};
use path_trace::trace;
use plane_core::Plane;
use plane_set::PlaneSet;
use route_law::{Cert, Entry};
use std::alloc::Global;
use std::process::Abort;
use std::test::Fail;
use tile_search::{Found, search};

const TOP: LayerId = LayerId(0);

const BOTTOM: LayerId = LayerId(2);

fn left_pin() -> Rect {
    Rect::new(4, 9, 6, 11)
}

fn right_pin() -> Rect {
    Rect::new(34, 9, 36, 11)
}

fn on(layer: LayerId, area: Rect) -> Spot {
    Spot { layer, area }
}

/// The verdict on the certificate, and on the connection that it promises for this entry and end.
fn verdict_on_path<P: Plane>(
    rt: &impl Abort,
    alloc: Global,
    board: &Board,
    planes: &PlaneSet<P>,
    net: NetId,
    sources: &[Spot],
    targets: &[Spot],
    cert: &Cert,
    entry: u64,
    end: Node,
) -> Result<Verdict, NoMemory>
    requires planes { HasPlanes board.now.parts planes.now }
    requires net { net.0 < length board.now.parts.net_names }
    requires sources { All (IsBoardBox board.now.parts) sources.now }
    requires targets { All (IsBoardBox board.now.parts) targets.now }
    requires target { 0 < length targets.now }
    requires right { IsRight (ground_of board.now.parts planes.now net) sources.now targets.now cert.now }
    requires entry { entry < length cert.now.entries }
    requires inside { (e : CertEntry) → slice_get cert.now.entries entry ≡ Some e → IsInStripOf e end }
{
    let conn = trace(
        alloc, board, planes, net, sources, targets, cert, entry, end,
    )?;
    assert!(rt; has_places(&conn));
    check(
        alloc,
        board,
        planes,
        net,
        sources,
        targets,
        Some(&conn),
        cert,
    )
}

/// The verdict on what the search found, with the connection of a path.
fn verdict_on<P: Plane>(
    rt: &impl Abort,
    alloc: Global,
    board: &Board,
    planes: &PlaneSet<P>,
    net: NetId,
    sources: &[Spot],
    targets: &[Spot],
    found: &Found,
) -> Result<Verdict, NoMemory>
    requires planes { HasPlanes board.now.parts planes.now }
    requires net { net.0 < length board.now.parts.net_names }
    requires sources { All (IsBoardBox board.now.parts) sources.now }
    requires targets { All (IsBoardBox board.now.parts) targets.now }
    requires target { 0 < length targets.now }
    requires path { HasRightPath (ground_of board.now.parts planes.now net) sources.now targets.now found.now }
    requires path_end { HasPathEnd targets.now found.now }
{
    match found {
        Found::Path {
            entry,
            end,
            cert,
            ..
        } => verdict_on_path(
            rt, alloc, board, planes, net, sources, targets, cert, *entry, *end,
        ),
        Found::NoRoute { cert } => check(alloc, board, planes, net, sources, targets, None, cert),
    }
}

/// What the search finds on the board from one box to the other; the checker must say yes to it.
fn search_on<P: Plane>(
    rt: &impl Abort,
    alloc: Global,
    board: &Board,
    from: Spot,
    to: Spot,
) -> Result<Found, Fail> {
    let planes: PlaneSet<P> = PlaneSet::build(alloc, board)?;
    let sources = [from];
    let targets = [to];
    assert!(rt; board.nets() > 0);
    assert!(rt; are_on_board(board, &sources));
    assert!(rt; are_on_board(board, &targets));
    let net = NetId(0);
    let found = search(alloc, board, &planes, net, &sources, &targets)?;
    let verdict = verdict_on(rt, alloc, board, &planes, net, &sources, &targets, &found)?;
    assert_eq!(rt; verdict, Verdict::Yes);
    Ok(found)
}

/// What the path costs and where it ends, `None` where there is no route.
fn path_of(found: &Found) -> Option<(u128, Node)> {
    match found {
        Found::Path { cost, end, .. } => Some((*cost, *end)),
        Found::NoRoute { .. } => None,
    }
}

/// How far two ranges of numbers are apart.
fn gap(low: i32, high: i32, from: i32, to: i32) -> u64 {
    let before = i64::from(low) - i64::from(to);
    let after = i64::from(from) - i64::from(high);
    before.max(after).max(0).unsigned_abs()
}

/// Whether the entry's cost and the distance from its front to the box are together at most this.
fn is_early(e: Entry, to: Rect, cost: u128) -> bool {
    let across = gap(e.front.x0, e.front.x1, to.x0, to.x1);
    let up = gap(e.front.y0, e.front.y1, to.y0, to.y1);
    e.cost
        .saturating_add(u128::from(across))
        .saturating_add(u128::from(up))
        <= cost
}

/// Whether a path is found each of whose entries goes to the box within the path's cost.
fn is_goal_ordered(found: &Found, to: Rect) -> bool {
    match found {
        Found::Path { cost, cert, .. } => {
            let cost = *cost;
            cert.entries
                .as_slice()
                .iter()
                .all(|e| is_early(*e, to, cost))
        }
        Found::NoRoute { .. } => false,
    }
}

/// Looks for a path from the one box to the other of this cost that ends here, in goal order.
fn expect_path<P: Plane>(
    rt: &impl Abort,
    alloc: Global,
    board: &Board,
    from: Spot,
    to: Spot,
    cost: u128,
    end: Node,
) -> Result<(), Fail> {
    let found = search_on::<P>(rt, alloc, board, from, to)?;
    assert!(rt; path_of(&found) == Some((cost, end)));
    assert!(rt; is_goal_ordered(&found, to.area));
    Ok(())
}

fn expect_none<P: Plane>(
    rt: &impl Abort,
    alloc: Global,
    board: &Board,
    from: Spot,
    to: Spot,
) -> Result<(), Fail> {
    let found = search_on::<P>(rt, alloc, board, from, to)?;
    assert!(rt; path_of(&found).is_none());
    Ok(())
}

fn node(x: i32, y: i32, layer: LayerId) -> Node {
    Node { x, y, layer }
}

/// A wall that leaves a gap.
const OPEN: &str =
    "board 1 wall 40 20;layer top;class thin;rule top thin 1 2;block top 18 0 22 14;net a thin;end;";

/// A wall up to the edge.
const SHUT: &str =
    "board 1 wall 40 20;layer top;class thin;rule top thin 1 2;block top 18 0 22 17;net a thin;end;";

#[test]
fn a_net_goes_round_a_wall_with_a_gap(rt: HostRuntime) -> Result<(), Fail> {
    let (from, to) = (on(TOP, left_pin()), on(TOP, right_pin()));
    on_board(
        rt.alloc(),
        OPEN,
        &|board: &Board| {
            expect_path::<FlatPlane>(&rt, rt.alloc(), board, from, to, 40, node(34, 11, TOP))
        },
    )
}

#[test]
fn no_route_leads_through_a_wall_up_to_the_edge(rt: HostRuntime) -> Result<(), Fail> {
    let (from, to) = (on(TOP, left_pin()), on(TOP, right_pin()));
    on_board(
        rt.alloc(),
        SHUT,
        &|board: &Board| { expect_none::<FlatPlane>(&rt, rt.alloc(), board, from, to) },
    )
}

/// A wall below and one above the way.
const WALLS: &str =
    "board 1 wall 40 20;layer top;class thin;rule top thin 1 2;block top 10 6 30 6;block top 0 14 30 14;net a thin;end;";

/// Between the walls the strip of the rows 9 to 11 is entered at (7, 9) for 18, from where the target is
/// 22 away, and at (33, 9) for 22. The way out is above the second, 15 right, 16 up and 13 left from the
/// start; from the first it would cost 66 in all.
#[test]
fn the_dearer_of_two_fronts_leads_on(rt: HostRuntime) -> Result<(), Fail> {
    let from = on(TOP, Rect::new(18, 2, 18, 2));
    let to = on(TOP, Rect::new(20, 18, 20, 18));
    on_board(
        rt.alloc(),
        WALLS,
        &|board: &Board| {
            expect_path::<FlatPlane>(&rt, rt.alloc(), board, from, to, 44, node(20, 18, TOP))
        },
    )
}

/// Three layers, a kind of via from the first to the last, and a wall on the one between.
const THROUGH: &str =
    "board 1 through 40 20;layer top;layer mid;layer bot;class sig;rule top sig 1 2;rule mid sig 1 2;rule bot sig 1 2;viakind thru top bot 5;pad thru sig 2;inner thru sig 2;block mid 5 8 14 12;net a sig;pin a 10 10 10 10 top top;pin a 17 10 17 10 bot bot;end;";

/// The via has a pad on the layer between as well, and with it keeps 2 from the wall there: it stands
/// at 18, one past the pin.
#[test]
fn a_via_joins_the_first_layer_and_the_last(rt: HostRuntime) -> Result<(), Fail> {
    let from = on(TOP, Rect::new(10, 10, 10, 10));
    let to = on(BOTTOM, Rect::new(17, 10, 17, 10));
    on_board(
        rt.alloc(),
        THROUGH,
        &|board: &Board| {
            expect_path::<FlatPlane>(&rt, rt.alloc(), board, from, to, 14, node(17, 10, BOTTOM))
        },
    )
}
