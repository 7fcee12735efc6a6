//! The area is cut out of the tiles that meet it, and gets its label.
ghost use Rattle.std.specs.Prelude.{◌≡◌, ◌<◌, Contains, IfOk};
ghost use Rattle.geo_rect.specs.declared.ids.Label.{Label as Colour};
ghost use Rattle.geo_rect.specs.declared.shapes.Point.{Point as Spot};
ghost use Rattle.geo_rect.specs.Plane.{HasPoint, LiesIn};
ghost use Rattle.stitch_walk.specs.Maximal.{AreMaximal};
ghost use Rattle.stitch_walk.specs.Neighbours.{AreMeeting};
ghost use Rattle.stitch_walk.specs.Pieces.{HasLabel};
ghost use Rattle.tile_paint.specs.Changes.{IsCutOut};
ghost use Rattle.tile_paint.specs.States.{MeetsUnder, IsOpenFrom, IsReadyFrom};

use crate::spots::{read, tiles_fill};
use crate::trims::crop;
use geo_rect::{Label, NoMemory, Rect};
use std::alloc::Global;
use std::marker::Brand;
use std::sync::ledger::{Blank, Ledger};
use stitch_walk::{Ids, Tiling};
use tile_cuts::relabel;
use tile_store::{Steps, TileId};

/// The tiles that meet a part of the domain, each once.
fn meeting(t: &Tiling, alloc: Global, area: Rect) -> Result<Ids, NoMemory>
    requires { LiesIn area t.now.domain }
    ensures { IfOk result (λ found. AreMeeting t.now.store area found) }
{
    meeting_by::<Brand>(t, alloc, area, Blank::new(1))
}

fn meeting_by<L: Ledger>(
    t: &Tiling,
    alloc: Global,
    area: Rect,
    blank: Blank,
) -> Result<Ids, NoMemory>
    requires name { blank.name ≡ L.name }
    requires parts { blank.parts ≡ L.parts }
    requires some { 0 < blank.parts }
    requires area { LiesIn area t.now.domain }
    ensures { IfOk result (λ found. AreMeeting t.now.store area found) }
{
    let mut steps = Steps::<L>::new(blank);
    t.sweep(alloc, area, &mut steps)
}

/// Cuts a tile that meets the area at the area's edges, and gives the part in the area the label.
fn cut_out_tile(t: &mut Tiling, id: TileId, area: Rect, label: Label) -> Result<(), NoMemory>
    requires meets { MeetsUnder t.old.store area id }
    requires open_from { IsOpenFrom t.old.store area area.y0 }
    ensures domain { t.new.domain ≡ t.old.domain }
    ensures open_from { IfOk result (λ _. IsOpenFrom t.new.store area area.y0) }
    ensures cut_out { IfOk result (λ _. IsCutOut t.old.store t.new.store area label id) }
{
    let found = read(t, id);
    let inner = crop(t, found, area)?;
    relabel(t, inner.id, label);
    Ok(())
}

/// Cuts the tiles under the numbers, as `cut_out_tile` does.
fn cut_out_all(t: &mut Tiling, ids: &[TileId], area: Rect, label: Label) -> Result<(), NoMemory>
    requires meeting { AreMeeting t.old.store area ids.now }
    requires open_from { IsOpenFrom t.old.store area area.y0 }
    requires inside { LiesIn area t.old.domain }
    ensures domain { t.new.domain ≡ t.old.domain }
    ensures ready { IfOk result (λ _. IsReadyFrom t.new.store area label area.y0) }
    ensures outside { IfOk result (λ _. (p : Spot) (old : Colour) → (HasPoint area p → ⊥) → HasLabel t.old.store p old → HasLabel t.new.store p old) }
{
    for id in ids {
        cut_out_tile(t, *id, area, label)?;
    }
    tiles_fill(t);
    Ok(())
}

/// Cuts the tiles that meet the area at its edges, and gives it the label.
pub fn cut_out(t: &mut Tiling, alloc: Global, area: Rect, label: Label) -> Result<(), NoMemory>
    requires inside { LiesIn area t.old.domain }
    requires maximal { AreMaximal t.old.store }
    ensures domain { t.new.domain ≡ t.old.domain }
    ensures ready { IfOk result (λ _. IsReadyFrom t.new.store area label area.y0) }
    ensures outside { IfOk result (λ _. (p : Spot) (old : Colour) → (HasPoint area p → ⊥) → HasLabel t.old.store p old → HasLabel t.new.store p old) }
{
    let ids = meeting(t, alloc, area)?;
    cut_out_all(t, ids.as_slice(), area, label)
}
