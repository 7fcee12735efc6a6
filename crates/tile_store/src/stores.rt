ghost use Rattle.std.specs.Prelude.{◌≡◌, ◌+◌, ◌<◌, ◌≤◌, Some, None, IfSome, IfNone, OnOk, OnErr};
ghost use Rattle.tile_store.specs.Store.{tile_at, IsPresent, ChangesAt, HasNoTile, HasSameTiles};

use crate::steps::Steps;
use crate::tiles::{Tile, TileId};
use geo_rect::NoMemory;
use slab::Slab;
use std::alloc::Global;
use std::cell::Cell;
use std::marker::Model;
use std::sync::ledger::Ledger;

/// Tiles under their numbers.
#[derive(Drop)]
pub struct TileStore {
    tiles: Slab<Tile>,
    /// How many more tiles have their place already.
    spare: usize,
    /// The number of the tile that was read or put last, which may be gone.
    recent: Cell<usize>,
}

impl Model for TileStore {
    ghost use Rattle.slab.specs.Slab.{HasRoomFor};
    ghost use Rattle.tile_store.specs.Store.{Store};

    ghost Value = { Store };

    ghost view = { λ s. record { slots = s.tiles.slots; spare = s.spare } };

    ghost invariant = { λ s. HasRoomFor s.tiles s.spare };
}

impl TileStore {
    /// The store of no tile, in which none has its place yet. It takes no memory.
    pub fn new(alloc: Global) -> TileStore
        ensures empty { HasNoTile result }
        ensures spare { result.spare ≡ 0 }
    {
        TileStore {
            tiles: Slab::new(alloc),
            spare: 0,
            recent: Cell::new(0),
        }
    }

    /// The tile under a number that is present. It counts as one step.
    pub fn read<L: Ledger>(&self, id: TileId, steps: &mut Steps<L>) -> Tile
        requires { IsPresent self.now id }
        ensures tile { tile_at self.now id ≡ Some result }
        ensures counted { steps.new ≡ steps.old + 1 }
    {
        steps.tick();
        self.recent.set(id.0);
        match self.tiles.get(id.0) {
            Some(tile) => *tile,
            None => unreachable!(),
        }
    }

    /// Puts another tile under a number that is present.
    pub fn write(&mut self, id: TileId, t: Tile)
        requires { IsPresent self.old id }
        ensures changed { ChangesAt self.old self.new id (Some t) }
        ensures spare { self.old.spare ≤ self.new.spare }
    {
        self.recent.set(id.0);
        if let Some(tile) = self.tiles.get_mut(id.0) {
            *tile = t;
        }
    }

    /// Makes place for at least `n` more tiles. After `NoMemory` all is as before.
    pub fn reserve(&mut self, n: usize) -> Result<(), NoMemory>
        ensures room { OnOk result (n ≤ self.new.spare) }
        ensures tiles { HasSameTiles self.old self.new }
        ensures unchanged { OnErr result (self.new ≡ self.old) }
    {
        self.tiles.reserve(n)?;
        self.spare = self.tiles.capacity() - self.tiles.len();
        Ok(())
    }

    /// How many more tiles have their place already.
    pub fn spare(&self) -> usize
        ensures { result ≡ self.now.spare }
    {
        self.spare
    }

    /// A number that is present: that of the tile that was read or put last, if it is still there, and
    /// else that of any. `None` where there is no tile. It counts as no step.
    pub fn some_id(&self) -> Option<TileId>
        ensures some { IfSome result (λ id. IsPresent self.now id) }
        ensures none { IfNone result (HasNoTile self.now) }
    {
        let recent = self.recent.get();
        if self.tiles.contains(recent) {
            return Some(TileId(recent));
        }
        let (key, _) = self.tiles.iter().next()?;
        Some(TileId(key))
    }

    /// Puts in a tile, for which there has to be a place, and gives its number, which was absent.
    pub fn put(&mut self, t: Tile) -> TileId
        requires { 0 < self.old.spare }
        ensures was_absent { tile_at self.old result ≡ None }
        ensures changed { ChangesAt self.old self.new result (Some t) }
        ensures spare { self.old.spare ≤ self.new.spare + 1 }
    {
        self.spare -= 1;
        let key = self.tiles.insert_reserved(t);
        self.recent.set(key);
        TileId(key)
    }

    /// Takes out the tile under a number that is present.
    pub fn take(&mut self, id: TileId) -> Tile
        requires { IsPresent self.old id }
        ensures was_there { tile_at self.old id ≡ Some result }
        ensures changed { ChangesAt self.old self.new id None }
        ensures spare { self.old.spare ≤ self.new.spare }
    {
        let tile = self.tiles.remove(id.0);
        self.spare = self.tiles.capacity() - self.tiles.len();
        tile
    }
}
