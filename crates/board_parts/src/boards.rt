ghost use Rattle.std.specs.Prelude.{◌≡◌, ◌<◌, length, Contains, IfOk, IfSome, IfNone, slice_get, Some};
ghost use Rattle.board_parts.specs.Rules.{IsBoard};
ghost use Rattle.std.proofs.Props.{props};

use crate::name_index::{NameIndex, two_of};
use crate::parts::BoardParts;
use geo_rect::{ClassId, KindId, LayerId, NetId, NoMemory};
use std::alloc::Global;

/// The names of a board, of each sort with an index.
#[derive(Drop)]
struct BoardNames {
    layers: NameIndex,
    classes: NameIndex,
    kinds: NameIndex,
    nets: NameIndex,
}

impl BoardNames {
    /// The names that stand in these parts.
    fn of(alloc: Global, parts: &BoardParts) -> Result<BoardNames, NoMemory>
        requires { IsBoard parts.now }
        ensures layers { IfOk result (λ n. n.layers ≡ parts.now.layers) }
        ensures classes { IfOk result (λ n. n.classes ≡ parts.now.classes) }
        ensures kinds { IfOk result (λ n. n.kinds ≡ parts.now.kind_names) }
        ensures nets { IfOk result (λ n. n.nets ≡ parts.now.net_names) }
    {
        let (layers, classes) = two_of(alloc, parts.layers.as_slice(), parts.classes.as_slice())?;
        let (kinds, nets) = two_of(
            alloc,
            parts.kind_names.as_slice(),
            parts.net_names.as_slice(),
        )?;
        Ok(BoardNames {
            layers,
            classes,
            kinds,
            nets,
        })
    }
}

/// A board that keeps every rule of the board text, with its names found without a scan.
#[derive(Drop)]
pub struct Board {
    pub parts: BoardParts,
    names: BoardNames,
    pub ghost kept: { IsBoard parts } by { Prim.hlevel props },
    ghost layers_named: { names.layers ≡ parts.layers } by { Prim.hlevel props },
    ghost classes_named: { names.classes ≡ parts.classes } by { Prim.hlevel props },
    ghost kinds_named: { names.kinds ≡ parts.kind_names } by { Prim.hlevel props },
    ghost nets_named: { names.nets ≡ parts.net_names } by { Prim.hlevel props },
}

impl Board {
    /// The board of these parts, which keep every rule of the board text.
    pub fn build(alloc: Global, parts: BoardParts) -> Result<Board, NoMemory>
        requires { IsBoard parts }
        ensures { IfOk result (λ b. b.parts ≡ parts) }
    {
        let names = BoardNames::of(alloc, &parts)?;
        Ok(Board { parts, names })
    }

    /// The layer of this name.
    pub fn find_layer(&self, name: &str) -> Option<LayerId>
        ensures some { IfSome result (λ l. slice_get self.now.parts.layers l.0 ≡ Some name.now) }
        ensures known { IfSome result (λ l. l.0 < length self.now.parts.layers) }
        ensures none { IfNone result (Contains self.now.parts.layers name.now → ⊥) }
    {
        let number = self.names.layers.find(name)?;
        Some(LayerId(number))
    }

    /// The class of this name.
    pub fn find_class(&self, name: &str) -> Option<ClassId>
        ensures some { IfSome result (λ c. slice_get self.now.parts.classes c.0 ≡ Some name.now) }
        ensures known { IfSome result (λ c. c.0 < length self.now.parts.classes) }
        ensures none { IfNone result (Contains self.now.parts.classes name.now → ⊥) }
    {
        let number = self.names.classes.find(name)?;
        Some(ClassId(number))
    }

    /// The kind of via of this name.
    pub fn find_kind(&self, name: &str) -> Option<KindId>
        ensures some { IfSome result (λ k. slice_get self.now.parts.kind_names k.0 ≡ Some name.now) }
        ensures known { IfSome result (λ k. k.0 < length self.now.parts.kind_names) }
        ensures none { IfNone result (Contains self.now.parts.kind_names name.now → ⊥) }
    {
        let number = self.names.kinds.find(name)?;
        Some(KindId(number))
    }

    /// The net of this name.
    pub fn find_net(&self, name: &str) -> Option<NetId>
        ensures some { IfSome result (λ n. slice_get self.now.parts.net_names n.0 ≡ Some name.now) }
        ensures known { IfSome result (λ n. n.0 < length self.now.parts.net_names) }
        ensures none { IfNone result (Contains self.now.parts.net_names name.now → ⊥) }
    {
        let number = self.names.nets.find(name)?;
        Some(NetId(number))
    }
}
