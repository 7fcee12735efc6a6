//! Labels of points of the planes of a board.

ghost use Rattle.std.specs.Prelude.{IsTrue};
ghost use Rattle.geo_rect.specs.Plane.{HasPoint};
ghost use Rattle.grow_rules.specs.Frames.{IsBoardPoint};
ghost use Rattle.plane_set.specs.Standing.{HasPlanes};

use crate::boards::on_board;
use board_model::Board;
use flat_plane::FlatPlane;
use geo_rect::{ClassId, KindId, Label, LayerId, NetId, NoMemory, Node, Point, Rect};
use plane_core::Plane;
use plane_set::PlaneSet;
use std::alloc::Global;
use std::process::Abort;
use std::test::Fail;

const ONE: Label = Label::One(NetId(0));

fn has_point(r: Rect, p: Point) -> bool
    ensures { IsTrue result → HasPoint r p }
{
    if p.x < r.x0 {
        return false;
    }
    if p.x > r.x1 {
        return false;
    }
    if p.y < r.y0 {
        return false;
    }
    p.y <= r.y1
}

fn label_at<P: Plane>(rt: &impl Abort, plane: &P, at: Point) -> Label {
    assert!(rt; has_point(plane.domain(), at));
    plane.strip_at(at).label
}

fn expect_vias<P: Plane>(
    rt: &impl Abort,
    alloc: Global,
    board: &Board,
    set: &PlaneSet<P>,
) -> Result<(), NoMemory>
    requires { HasPlanes board.now.parts set.now }
{
    assert!(rt; board.kinds() > 0);
    assert!(rt; board.classes() > 0);
    let plane = set.via(KindId(0), ClassId(0));
    let domain = plane.domain();
    assert_eq!(rt; plane.strips_in(alloc, domain)?.len(), 7);
    for (x, label) in [(10, ONE), (14, Label::Free), (15, Label::Many)] {
        assert_eq!(rt; label_at(rt, plane, Point { x, y: 5 }), label, "at {x}");
    }
    Ok(())
}

/// A pin on the second layer alone, and a blockage on the first.
const BOTH: &str =
    "board 1 small 20 10;layer top;layer bottom;class thin;rule top thin 1 2;rule bottom thin 1 2;viakind hole top bottom 5;pad hole thin 2;block top 18 0 20 10;net a thin;pin a 10 5 10 5 bottom bottom;end;";

fn check_vias<P: Plane>(rt: &impl Abort, alloc: Global, board: &Board) -> Result<(), Fail> {
    let set: PlaneSet<P> = PlaneSet::build(alloc, board)?;
    expect_vias(rt, alloc, board, &set)?;
    Ok(())
}

#[test]
fn vias_keep_off_both_layers(rt: HostRuntime) -> Result<(), Fail> {
    on_board(
        rt.alloc(),
        BOTH,
        &|board: &Board| check_vias::<FlatPlane>(&rt, rt.alloc(), board),
    )
}

/// Whether the net may pass a point of the first layer.
fn may_pass<P: Plane>(rt: &impl Abort, board: &Board, set: &PlaneSet<P>, at: Point) -> bool
    requires { HasPlanes board.now.parts set.now }
{
    assert!(rt; board.nets() > 0);
    assert!(rt; board.layers() > 0);
    assert!(rt; is_on_board(board, at));
    let node = Node {
        x: at.x,
        y: at.y,
        layer: LayerId(0),
    };
    set.passable(board, NetId(0), node)
}

fn is_on_board(board: &Board, p: Point) -> bool
    ensures { IsTrue result → IsBoardPoint board.now.parts p }
{
    if p.x < 0 {
        return false;
    }
    if p.x > board.width() {
        return false;
    }
    if p.y < 0 {
        return false;
    }
    p.y <= board.height()
}

const WALL: &str =
    "board 1 small 40 20;layer top;layer bottom;class thin;rule top thin 1 2;rule bottom thin 1 2;viakind hole top bottom 5;pad hole thin 2;block top 18 0 22 14;net a thin;end;";

/// The wall keeps the net off as far as its gap, and no farther.
fn check_wall<P: Plane>(rt: &impl Abort, alloc: Global, board: &Board) -> Result<(), Fail> {
    let set: PlaneSet<P> = PlaneSet::build(alloc, board)?;
    assert!(rt; may_pass(rt, board, &set, Point { x: 15, y: 5 }));
    assert!(rt; !may_pass(rt, board, &set, Point { x: 16, y: 5 }));
    Ok(())
}

#[test]
fn a_net_passes_outside_the_gap_of_a_wall(rt: HostRuntime) -> Result<(), Fail> {
    on_board(
        rt.alloc(),
        WALL,
        &|board: &Board| check_wall::<FlatPlane>(&rt, rt.alloc(), board),
    )
}

/// The labels of a point in the planes of wires on the second layer and of vias.
fn both_labels<P: Plane>(rt: &impl Abort, board: &Board, set: &PlaneSet<P>, at: Point) -> [Label; 2]
    requires { HasPlanes board.now.parts set.now }
{
    assert!(rt; board.layers() > 1);
    assert!(rt; board.kinds() > 0);
    assert!(rt; board.classes() > 0);
    let wires = label_at(rt, set.wire(LayerId(1), ClassId(0)), at);
    let vias = label_at(rt, set.via(KindId(0), ClassId(0)), at);
    [wires, vias]
}

/// The same with the planes of the board.
fn expect_labels<P: Plane>(
    rt: &impl Abort,
    alloc: Global,
    board: &Board,
    x: i32,
    labels: [Label; 2],
) -> Result<(), Fail> {
    let set: PlaneSet<P> = PlaneSet::build(alloc, board)?;
    let found = both_labels(rt, board, &set, Point { x, y: 5 });
    assert_eq!(rt; found, labels, "at {x}");
    Ok(())
}

/// The text of a board of three layers, with a keep-out and one kind of via over all layers, whose pad is
/// smaller on the middle one.
fn three_layers(alloc: Global, keepout: &str) -> Result<String, Fail> {
    Ok(format!(in alloc;
        "board 2 three 40 20;layer top;layer middle;layer bottom;class thin;rule top thin 1 2;rule middle thin 1 2;rule bottom thin 1 2;viakind hole top bottom 5;pad hole thin 3;inner hole thin 1;keepout {keepout} 18 0 22 14;net a thin;end;"
    )?)
}

/// A wire reaches 1 round its middle, a via 3 on the outer layers and 1 on the middle one.
#[test]
fn keepouts_shut_wires_or_vias(rt: HostRuntime) -> Result<(), Fail> {
    let free = Label::Free;
    let many = Label::Many;
    for (keepout, x, labels) in [
        ("wires middle", 16, [free, free]),
        ("wires middle", 17, [many, free]),
        ("wires top", 20, [free, free]),
        ("vias middle", 16, [free, free]),
        ("vias middle", 17, [free, many]),
        ("vias top", 14, [free, free]),
        ("vias top", 15, [free, many]),
        ("vias top", 2, [free, many]),
    ] {
        let text = three_layers(rt.alloc(), keepout)?;
        on_board(
            rt.alloc(),
            &text,
            &|board: &Board| { expect_labels::<FlatPlane>(&rt, rt.alloc(), board, x, labels) },
        )?;
    }
    Ok(())
}
