ghost use Rattle.std.specs.Prelude.{◌≡◌, ◌+◌, ◌≤◌, Some, IfOk, OnOk, OnErr};
ghost use Rattle.geo_rect.specs.Plane.{HasPoint};
ghost use Rattle.plane_core.specs.Labels.{IsSmall};
ghost use Rattle.tile_store.specs.Store.{tile_at, IsPresent, HasSameTiles};
ghost use Rattle.stitch_walk.specs.Links.{IsTiling, IsOnlyTile, whole_tile};

use geo_rect::{Label, NoMemory, Rect};
use std::alloc::Global;
use std::marker::Model;
use std::sync::ledger::Ledger;
use tile_store::{Steps, Tile, TileId, TileStore};

/// Tiles that fill the domain, no two with a common point, each linked to its neighbours by its
/// stitches. Coordinates lie between -2^24 and 2^24.
#[derive(Drop)]
pub struct Tiling {
    pub store: TileStore,
    pub domain: Rect,
}

impl Model for Tiling {
    ghost use Rattle.stitch_walk.specs.Links.{IsTiling, Tiles};

    ghost Value = { Tiles };

    ghost view = { λ t. record { store = t.store; domain = t.domain } };

    ghost invariant = { λ t. IsTiling t.store t.domain };
}

impl Tiling {
    /// The tiling of one free tile. The coordinates of the domain lie between -2^24 and 2^24.
    pub fn whole(alloc: Global, domain: Rect) -> Result<Tiling, NoMemory>
        requires { IsSmall domain }
        ensures domain { IfOk result (λ t. t.domain ≡ domain) }
        ensures tiles { IfOk result (λ t. IsOnlyTile t.store (whole_tile domain)) }
    {
        let mut store = TileStore::new(alloc);
        store.reserve(1)?;
        store.put(Tile {
            area: domain,
            label: Label::Free,
            bl: None,
            lb: None,
            tr: None,
            rt: None,
        });
        Ok(Tiling { store, domain })
    }

    /// The number of some tile.
    pub fn hint(&self) -> TileId
        ensures present { IsPresent self.now.store result }
        ensures tiling { IsTiling self.now.store self.now.domain }
    {
        let _domain = self.domain;
        match self.store.some_id() {
            Some(id) => id,
            None => unreachable!(),
        }
    }

    /// The tile under a number that is present. It counts as one step.
    pub fn tile<L: Ledger>(&self, id: TileId, steps: &mut Steps<L>) -> Tile
        requires { IsPresent self.now.store id }
        ensures tile { tile_at self.now.store id ≡ Some result }
        ensures counted { steps.new ≡ steps.old + 1 }
        ensures small { IsSmall result.area }
        ensures tiling { IsTiling self.now.store self.now.domain }
    {
        let _domain = self.domain;
        self.store.read(id, steps)
    }

    /// Makes place for at least `n` more tiles. After `NoMemory` all is as before.
    pub fn reserve(&mut self, n: usize) -> Result<(), NoMemory>
        ensures room { OnOk result (n ≤ self.new.store.spare) }
        ensures tiles { HasSameTiles self.old.store self.new.store }
        ensures domain { self.new.domain ≡ self.old.domain }
        ensures unchanged { OnErr result (self.new ≡ self.old) }
    {
        self.store.reserve(n)
    }

    /// How many more tiles have their place already.
    pub fn spare(&self) -> usize
        ensures { result ≡ self.now.store.spare }
    {
        self.store.spare()
    }
}
