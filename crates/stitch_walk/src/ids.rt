ghost use Rattle.std.specs.Prelude.{◌≡◌, [], ◌∷◌, ◌++◌, ◌<◌, length, slice_get, Some, OnOk, OnErr, IsTrue, ◌↔◌};

use geo_rect::NoMemory;
use smallvec::SmallVec;
use std::alloc::Global;
use std::marker::Model;
use tile_store::TileId;

/// A list of numbers of tiles, of which the first eight take no memory of their own.
#[derive(Drop)]
pub struct Ids {
    pub items: SmallVec<TileId, 8>,
}

impl Model for Ids {
    ghost use Rattle.std.specs.Prelude.{List};
    ghost use Rattle.tile_store.specs.declared.tiles.TileId.{TileId as Number};

    ghost Value = { List Number };

    ghost view = { λ s. s.items.items };
}

impl Ids {
    /// The empty list.
    pub fn new(alloc: Global) -> Ids
        ensures { result ≡ [] }
    {
        Ids {
            items: SmallVec::new(alloc),
        }
    }

    pub fn len(&self) -> usize
        ensures { result ≡ length self.now }
    {
        self.items.len()
    }

    pub fn is_empty(&self) -> bool
        ensures { IsTrue result ↔ (self.now ≡ []) }
    {
        self.items.is_empty()
    }

    /// All numbers, in order.
    pub fn as_slice(&self) -> &[TileId]
        ensures { result.now ≡ self.now }
    {
        self.items.as_slice()
    }

    /// The number at a place, counted from 0.
    pub fn at(&self, place: usize) -> TileId
        requires { place < length self.now }
        ensures { slice_get self.now place ≡ Some result }
    {
        self.as_slice()[place]
    }

    /// Adds one number at the end. After `NoMemory` the list is as before.
    pub fn push(&mut self, id: TileId) -> Result<(), NoMemory>
        ensures ok { OnOk result (self.new ≡ self.old ++ id ∷ []) }
        ensures err { OnErr result (self.new ≡ self.old) }
    {
        self.items.push(id)?;
        Ok(())
    }

    /// Adds these numbers at the end. After `NoMemory` the list is as before.
    pub fn append(&mut self, more: &[TileId]) -> Result<(), NoMemory>
        ensures ok { OnOk result (self.new ≡ self.old ++ more.now) }
        ensures err { OnErr result (self.new ≡ self.old) }
    {
        self.items.extend_from_slice(more)?;
        Ok(())
    }
}
