ghost use Rattle.std.specs.Prelude.{◌≡◌, pos, [], ◌∷◌, ◌++◌, length, OnOk, OnErr, IsTrue, ◌↔◌};

use geo_rect::{Label, NoMemory, Rect};
use smallvec::SmallVec;
use std::alloc::Global;
use std::marker::Model;

/// A rectangle of points that all have one label.
#[derive(Clone, Copy, Debug, PartialEq, Eq)]
pub struct Strip {
    pub area: Rect,
    pub label: Label,
}

/// The free point 0, 0: what fills the places of a `Strips` that hold no strip yet.
impl Default for Strip {
    ghost use Rattle.geo_rect.specs.declared.ids.Label.TheVariants.{Free};

    ghost is_default = { λ s. (s.label ≡ Free) × (s.area.x0 ≡ pos 0) × (s.area.y0 ≡ pos 0) × (s.area.x1 ≡ pos 0) × (s.area.y1 ≡ pos 0) };

    fn default() -> Strip {
        Strip {
            area: Rect::new(0, 0, 0, 0),
            label: Label::Free,
        }
    }
}

/// A list of strips, of which the first eight take no memory of their own.
#[derive(Drop)]
pub struct Strips {
    pub items: SmallVec<Strip, 8>,
}

impl Model for Strips {
    ghost use Rattle.std.specs.Prelude.{List};
    ghost use Rattle.plane_core.specs.declared.strips.Strip.{Strip as Piece};

    ghost Value = { List Piece };

    ghost view = { λ s. s.items.items };
}

impl Strips {
    /// The empty list.
    pub fn new(alloc: Global) -> Strips
        ensures { result ≡ [] }
    {
        Strips {
            items: SmallVec::new(alloc),
        }
    }

    pub fn len(&self) -> usize
        ensures { result ≡ length self.now }
    {
        self.items.len()
    }

    pub fn is_empty(&self) -> bool
        ensures { IsTrue result ↔ (self.now ≡ []) }
    {
        self.items.is_empty()
    }

    /// All strips, in order.
    pub fn as_slice(&self) -> &[Strip]
        ensures { result.now ≡ self.now }
    {
        self.items.as_slice()
    }

    /// Adds one strip at the end. After `NoMemory` the list is as before.
    pub fn push(&mut self, strip: Strip) -> Result<(), NoMemory>
        ensures ok { OnOk result (self.new ≡ self.old ++ strip ∷ []) }
        ensures err { OnErr result (self.new ≡ self.old) }
    {
        self.items.push(strip)?;
        Ok(())
    }
}
