ghost use Rattle.std.specs.Prelude.{◌≡◌, ◌<◌};
ghost use Rattle.tile_store.specs.Store.{IsPresent};

use geo_rect::{Label, Rect};
use std::marker::Brand;
use std::sync::ledger::{Blank, Ledger};
use std::test::Fail;
use tile_store::{Steps, Tile, TileId, TileStore};

fn free_tile(area: Rect) -> Tile {
    Tile {
        area,
        label: Label::Free,
        bl: None,
        lb: None,
        tr: None,
        rt: None,
    }
}

/// The tile under a number, or another where there is none.
fn area_at<L: Ledger>(store: &TileStore, id: TileId, blank: Blank) -> Rect
    requires name { blank.name ≡ L.name }
    requires parts { blank.parts ≡ L.parts }
    requires some { 0 < blank.parts }
    requires present { IsPresent store.now id }
{
    let mut steps = Steps::<L>::new(blank);
    store.read(id, &mut steps).area
}

#[test]
fn three_tiles_under_three_numbers(rt: HostRuntime) -> Result<(), Fail> {
    let areas = [
        Rect::new(0, 0, 9, 4),
        Rect::new(0, 5, 3, 9),
        Rect::new(4, 5, 9, 9),
    ];
    let mut store = TileStore::new(rt.alloc());
    assert!(rt; store.some_id().is_none());
    store.reserve(3)?;
    assert!(rt; store.spare() >= 3);
    let first = store.put(free_tile(areas[0]));
    let second = store.put(free_tile(areas[1]));
    let third = store.put(free_tile(areas[2]));
    assert_ne!(rt; first, second);
    assert_ne!(rt; first, third);
    assert_ne!(rt; second, third);
    store.write(first, free_tile(areas[2]));
    assert_eq!(rt; area_at::<Brand>(&store, first, Blank::new(1)), areas[2]);
    assert_eq!(rt; store.take(first).area, areas[2]);
    assert!(rt; store.some_id().is_some());
    Ok(())
}
