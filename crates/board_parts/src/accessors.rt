ghost use Rattle.std.specs.Prelude.{◌≡◌, ◌<◌, length, slice_index_or, []};
ghost use Rattle.board_parts.specs.Rules.{IsRule, IsMeasure, IsKind};
ghost use Rattle.board_parts.specs.Lookup.{rule_of, gap_of, pad_of, inner_of, pad_on, kind_of, class_of};

use crate::boards::Board;
use crate::parts::{Block, Keepout, Pin, Rule, ViaKind};
use geo_rect::{ClassId, KindId, LayerId, NetId};

impl Board {
    /// In micrometres: the points of the board have x from 0 to this.
    pub fn width(&self) -> i32
        ensures { result ≡ self.now.parts.width }
    {
        self.parts.width
    }

    /// In micrometres: the points of the board have y from 0 to this.
    pub fn height(&self) -> i32
        ensures { result ≡ self.now.parts.height }
    {
        self.parts.height
    }

    /// The number of layers.
    pub fn layers(&self) -> u32
        ensures { result ≡ length self.now.parts.layers }
    {
        self.parts.layers.len() as u32
    }

    /// The number of classes.
    pub fn classes(&self) -> u32
        ensures { result ≡ length self.now.parts.classes }
    {
        self.parts.classes.len() as u32
    }

    /// The number of kinds of vias.
    pub fn kinds(&self) -> u32
        ensures { result ≡ length self.now.parts.kinds }
    {
        self.parts.kinds.len() as u32
    }

    /// The number of nets.
    pub fn nets(&self) -> u32
        ensures { result ≡ length self.now.parts.net_names }
    {
        self.parts.net_names.len() as u32
    }

    /// What a class keeps on a layer.
    pub fn rule(&self, l: LayerId, c: ClassId) -> Rule
        requires layer { l.0 < length self.now.parts.layers }
        requires class { c.0 < length self.now.parts.classes }
        ensures value { result ≡ rule_of self.now.parts l c }
        ensures measures { IsRule result }
    {
        self.parts.rules.as_slice()[l.0 as usize * self.parts.classes.len() + c.0 as usize]
    }

    /// The gap between two classes on a layer, in micrometres.
    pub fn gap(&self, l: LayerId, a: ClassId, b: ClassId) -> i32
        requires layer { l.0 < length self.now.parts.layers }
        requires first { a.0 < length self.now.parts.classes }
        requires second { b.0 < length self.now.parts.classes }
        ensures value { result ≡ gap_of self.now.parts l a b }
        ensures measure { IsMeasure result }
    {
        let classes = self.parts.classes.len();
        let row = l.0 as usize * classes + a.0 as usize;
        self.parts.gaps.as_slice()[row * classes + b.0 as usize]
    }

    /// Half the width of the pad of a kind's via for a class on the first and the last layer, in
    /// micrometres.
    pub fn pad(&self, k: KindId, c: ClassId) -> i32
        requires kind { k.0 < length self.now.parts.kinds }
        requires class { c.0 < length self.now.parts.classes }
        ensures value { result ≡ pad_of self.now.parts k c }
        ensures measure { IsMeasure result }
    {
        self.parts.pads.as_slice()[k.0 as usize * self.parts.classes.len() + c.0 as usize]
    }

    /// Half the width of the pad of a kind's via for a class on each layer between the first and the
    /// last, in micrometres. For a kind of two layers it is that of the pad.
    pub fn inner(&self, k: KindId, c: ClassId) -> i32
        requires kind { k.0 < length self.now.parts.kinds }
        requires class { c.0 < length self.now.parts.classes }
        ensures value { result ≡ inner_of self.now.parts k c }
        ensures measure { IsMeasure result }
    {
        self.parts.inners.as_slice()[k.0 as usize * self.parts.classes.len() + c.0 as usize]
    }

    /// Half the width of the pad of a kind's via for a class on a layer, in micrometres.
    pub fn pad_on(&self, k: KindId, c: ClassId, l: LayerId) -> i32
        requires kind { k.0 < length self.now.parts.kinds }
        requires class { c.0 < length self.now.parts.classes }
        ensures value { result ≡ pad_on self.now.parts k c l }
        ensures measure { IsMeasure result }
    {
        let kind = self.kind(k);
        if l.0 == kind.first.0 {
            return self.pad(k, c);
        }
        if l.0 == kind.last.0 {
            return self.pad(k, c);
        }
        self.inner(k, c)
    }

    /// The layers that a kind of via joins, and what one costs.
    pub fn kind(&self, k: KindId) -> ViaKind
        requires { k.0 < length self.now.parts.kinds }
        ensures value { result ≡ kind_of self.now.parts k }
        ensures joins { IsKind (length self.now.parts.layers) result }
    {
        self.parts.kinds.as_slice()[k.0 as usize]
    }

    /// The class of a net.
    pub fn class_of(&self, n: NetId) -> ClassId
        requires { n.0 < length self.now.parts.net_names }
        ensures class { result ≡ class_of self.now.parts n }
        ensures known { result.0 < length self.now.parts.classes }
    {
        self.parts.net_classes.as_slice()[n.0 as usize]
    }

    /// The blockages, in the order of the text.
    pub fn blocks(&self) -> &[Block]
        ensures { result.now ≡ self.now.parts.blocks }
    {
        self.parts.blocks.as_slice()
    }

    /// The keep-outs, in the order of the text.
    pub fn keepouts(&self) -> &[Keepout]
        ensures { result.now ≡ self.now.parts.keepouts }
    {
        self.parts.keepouts.as_slice()
    }

    /// The pins, in the order of the text.
    pub fn pins(&self) -> &[Pin]
        ensures { result.now ≡ self.now.parts.pins }
    {
        self.parts.pins.as_slice()
    }

    /// The board's own name.
    pub fn name(&self) -> &str
        ensures { result.now ≡ self.now.parts.name }
    {
        self.parts.name.as_str()
    }

    pub fn layer_name(&self, l: LayerId) -> &str
        requires { l.0 < length self.now.parts.layers }
        ensures { result.now ≡ slice_index_or self.now.parts.layers l.0 [] }
    {
        self.parts.layers.as_slice()[l.0 as usize].as_str()
    }

    pub fn class_name(&self, c: ClassId) -> &str
        requires { c.0 < length self.now.parts.classes }
        ensures { result.now ≡ slice_index_or self.now.parts.classes c.0 [] }
    {
        self.parts.classes.as_slice()[c.0 as usize].as_str()
    }

    pub fn kind_name(&self, k: KindId) -> &str
        requires { k.0 < length self.now.parts.kind_names }
        ensures { result.now ≡ slice_index_or self.now.parts.kind_names k.0 [] }
    {
        self.parts.kind_names.as_slice()[k.0 as usize].as_str()
    }

    pub fn net_name(&self, n: NetId) -> &str
        requires { n.0 < length self.now.parts.net_names }
        ensures { result.now ≡ slice_index_or self.now.parts.net_names n.0 [] }
    {
        self.parts.net_names.as_slice()[n.0 as usize].as_str()
    }
}
