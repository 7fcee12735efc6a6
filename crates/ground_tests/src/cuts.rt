ghost use Rattle.std.specs.Prelude.{◌≡◌, ◌+◌, ◌<◌, IfOk, IsTrue, length};
ghost use Rattle.geo_rect.specs.declared.ids.Label.TheVariants.{Free};
ghost use Rattle.stitch_walk.specs.Pieces.{IsPiece};
ghost use Rattle.tile_store.specs.Store.{IsPresent};

use geo_rect::{Label, NoMemory, Point, Rect};
use std::alloc::Global;
use std::marker::Brand;
use std::process::Abort;
use std::sync::ledger::{Blank, Ledger};
use std::test::Fail;
use stitch_walk::{Ids, Tiling, has_point};
use tile_cuts::{cut_col, cut_row, join_side, join_up};
use tile_store::{Steps, TileId};

fn is_free(label: Label) -> bool
    ensures { IsTrue result → label ≡ Free }
{
    match label {
        Label::Free => true,
        Label::One(_) => false,
        Label::Many => false,
    }
}

fn is_same(a: Rect, b: Rect) -> bool
    ensures { IsTrue result → a ≡ b }
{
    if a.x0 != b.x0 {
        return false;
    }
    if a.y0 != b.y0 {
        return false;
    }
    if a.x1 != b.x1 {
        return false;
    }
    if a.y1 != b.y1 {
        return false;
    }
    true
}

/// The number of the free tile that has this area.
fn tile_of<L: Ledger>(rt: &impl Abort, t: &Tiling, area: Rect, steps: &mut Steps<L>) -> TileId
    ensures { IsPiece t.now.store result (record { area = area; label = Free }) }
{
    let corner = Point {
        x: area.x0,
        y: area.y0,
    };
    assert!(rt; has_point(t.domain, corner));
    let id = t.locate(t.hint(), corner, steps);
    let tile = t.tile(id, steps);
    assert!(rt; is_same(tile.area, area));
    assert!(rt; is_free(tile.label));
    id
}

/// The tiles above one that has two upper neighbours, found in three steps.
fn above<L: Ledger>(
    alloc: Global,
    t: &Tiling,
    id: TileId,
    steps: &mut Steps<L>,
) -> Result<Ids, NoMemory>
    requires { IsPresent t.now.store id }
    ensures { IfOk result (λ found. length found ≡ 2 → steps.new ≡ steps.old + 3) }
{
    t.side_walk::<3, L>(alloc, id, steps)
}

/// The number of tiles that meet an area.
fn count_meeting<L: Ledger>(
    rt: &impl Abort,
    alloc: Global,
    t: &Tiling,
    area: Rect,
    steps: &mut Steps<L>,
) -> Result<usize, NoMemory> {
    let first = Point {
        x: area.x0,
        y: area.y0,
    };
    let last = Point {
        x: area.x1,
        y: area.y1,
    };
    assert!(rt; has_point(t.domain, first));
    assert!(rt; has_point(t.domain, last));
    Ok(t.sweep(alloc, area, steps)?.len())
}

fn cut_and_join<L: Ledger>(rt: &impl Abort, alloc: Global, blank: Blank) -> Result<(), NoMemory>
    requires name { blank.name ≡ L.name }
    requires parts { blank.parts ≡ L.parts }
    requires some { 0 < blank.parts }
{
    let mut steps = Steps::<L>::new(blank);
    let whole = Rect::new(0, 0, 9, 9);
    let mut t = Tiling::whole(alloc, whole)?;
    t.reserve(2)?;
    let id = tile_of(rt, &t, whole, &mut steps);
    cut_row(&mut t, id, 5);
    let upper = tile_of(rt, &t, Rect::new(0, 5, 9, 9), &mut steps);
    cut_col(&mut t, upper, 4);
    let lower = tile_of(rt, &t, Rect::new(0, 0, 9, 4), &mut steps);
    let left = tile_of(rt, &t, Rect::new(0, 5, 3, 9), &mut steps);
    let right = tile_of(rt, &t, Rect::new(4, 5, 9, 9), &mut steps);
    let found = above(alloc, &t, lower, &mut steps)?;
    assert_eq!(rt; found.as_slice(), [right, left].as_slice());
    assert_eq!(rt;
        count_meeting(rt, alloc, &t, Rect::new(3, 4, 4, 5), &mut steps)?,
        3
    );
    join_side(&mut t, left);
    let lower = tile_of(rt, &t, Rect::new(0, 0, 9, 4), &mut steps);
    let _upper = tile_of(rt, &t, Rect::new(0, 5, 9, 9), &mut steps);
    join_up(&mut t, lower);
    let _whole = tile_of(rt, &t, whole, &mut steps);
    Ok(())
}

#[test]
fn three_tiles_are_cut_and_joined(rt: HostRuntime) -> Result<(), Fail> {
    cut_and_join::<Brand>(&rt, rt.alloc(), Blank::new(1))?;
    Ok(())
}
