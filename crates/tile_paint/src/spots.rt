//! What stands at a point of a tiling.
ghost use Rattle.std.specs.Prelude.{◌≡◌, ◌<◌, ◌↔◌, IsTrue, IfSome, IfNone};
ghost use Rattle.geo_rect.specs.Plane.{HasPoint};
ghost use Rattle.plane_core.specs.Labels.{IsSmall};
ghost use Rattle.tile_store.specs.Store.{IsPresent};
ghost use Rattle.stitch_walk.specs.Links.{Holds};
ghost use Rattle.stitch_walk.specs.Pieces.{FillDomain, HasLabel, IsPiece};

use crate::corners::{are_same_label, has_point};
use geo_rect::{Label, Point};
use plane_core::Strip;
use std::marker::Brand;
use std::sync::ledger::{Blank, Ledger};
use stitch_walk::Tiling;
use tile_store::{Steps, TileId};

/// A tile that was found: its number, and its area and label.
#[derive(Clone, Copy)]
pub struct Found {
    pub id: TileId,
    pub piece: Strip,
}

/// The tile under a number that is present.
pub fn read(t: &Tiling, id: TileId) -> Found
    requires { IsPresent t.now.store id }
    ensures id { result.id ≡ id }
    ensures piece { IsPiece t.now.store id result.piece }
    ensures small { IsSmall result.piece.area }
    ensures filled { FillDomain t.now.store t.now.domain }
    ensures domain { IsSmall t.now.domain }
{
    read_by::<Brand>(t, id, Blank::new(1))
}

fn read_by<L: Ledger>(t: &Tiling, id: TileId, blank: Blank) -> Found
    requires name { blank.name ≡ L.name }
    requires parts { blank.parts ≡ L.parts }
    requires some { 0 < blank.parts }
    requires present { IsPresent t.now.store id }
    ensures id { result.id ≡ id }
    ensures piece { IsPiece t.now.store id result.piece }
    ensures small { IsSmall result.piece.area }
    ensures filled { FillDomain t.now.store t.now.domain }
    ensures domain { IsSmall t.now.domain }
{
    let mut steps = Steps::<L>::new(blank);
    let tile = t.tile(id, &mut steps);
    Found {
        id,
        piece: Strip {
            area: tile.area,
            label: tile.label,
        },
    }
}

/// The tile that has the point `p` of the domain.
pub fn find(t: &Tiling, p: Point) -> Found
    requires { HasPoint t.now.domain p }
    ensures piece { IsPiece t.now.store result.id result.piece }
    ensures has_point { HasPoint result.piece.area p }
    ensures small { IsSmall result.piece.area }
    ensures filled { FillDomain t.now.store t.now.domain }
    ensures domain { IsSmall t.now.domain }
{
    read(t, locate_by::<Brand>(t, p, Blank::new(1)))
}

fn locate_by<L: Ledger>(t: &Tiling, p: Point, blank: Blank) -> TileId
    requires name { blank.name ≡ L.name }
    requires parts { blank.parts ≡ L.parts }
    requires some { 0 < blank.parts }
    requires point { HasPoint t.now.domain p }
    ensures { Holds t.now.store result p }
{
    let mut steps = Steps::<L>::new(blank);
    t.locate(t.hint(), p, &mut steps)
}

/// The tile that has the point; `None` where the domain does not have it.
pub fn look(t: &Tiling, p: Point) -> Option<Found>
    ensures piece { IfSome result (λ f. IsPiece t.now.store f.id f.piece) }
    ensures has_point { IfSome result (λ f. HasPoint f.piece.area p) }
    ensures small { IfSome result (λ f. IsSmall f.piece.area) }
    ensures none { IfNone result (HasPoint t.now.domain p → ⊥) }
    ensures filled { FillDomain t.now.store t.now.domain }
    ensures domain { IsSmall t.now.domain }
{
    if !has_point(t.domain, p) {
        return None;
    }
    Some(find(t, p))
}

/// That the tiles of a tiling fill its domain, which is small. This function does nothing.
pub fn tiles_fill(t: &Tiling)
    ensures filled { FillDomain t.now.store t.now.domain }
    ensures small { IsSmall t.now.domain }
{
    let _domain = t.domain;
}

/// Whether the domain has the point, and it has the label.
pub fn has_label(t: &Tiling, p: Point, label: Label) -> bool
    ensures label { IsTrue result ↔ HasLabel t.now.store p label }
    ensures inside { IsTrue result → HasPoint t.now.domain p }
{
    let Some(found) = look(t, p) else {
        return false;
    };
    are_same_label(found.piece.label, label)
}
