ghost use Rattle.std.specs.Prelude.{◌≡◌, IfOk};
ghost use Rattle.board_parts.specs.Lookup.{empty_parts};

use geo_rect::{ClassId, LayerId, List, NetId, NoMemory, Rect, Text};
use std::alloc::Global;

/// What a class of nets keeps on a layer, in micrometres.
#[derive(Clone, Copy)]
pub struct Rule {
    /// Half the width of a wire.
    pub half: i32,
    /// The gap to all that belongs to no net of the same number.
    pub gap: i32,
}

/// A kind of via: the layers that it joins, from the first to the last, and what one costs, in
/// micrometres of wire.
#[derive(Clone, Copy)]
pub struct ViaKind {
    pub first: LayerId,
    pub last: LayerId,
    pub charge: u32,
}

/// A blockage: an area of a layer that no net may come near.
#[derive(Clone, Copy)]
pub struct Block {
    pub layer: LayerId,
    pub area: Rect,
}

/// A keep-out: an area of a layer that no wire may come near, or no via.
#[derive(Clone, Copy)]
pub struct Keepout {
    /// Whether wires are kept out; if not, vias are.
    pub wires: bool,
    pub layer: LayerId,
    pub area: Rect,
}

/// A pin: an area of a net, on each layer from the first to the last.
#[derive(Clone, Copy)]
pub struct Pin {
    pub net: NetId,
    pub area: Rect,
    pub first: LayerId,
    pub last: LayerId,
}

/// A board as its plain lists, each in the order of the text.
#[derive(Drop)]
pub struct BoardParts {
    pub name: Text,
    /// In micrometres, as the height: the board is the points from `0` to `width` and `0` to `height`.
    pub width: i32,
    pub height: i32,
    pub layers: List<Text>,
    pub classes: List<Text>,
    /// One for each layer, and in it each class.
    pub rules: List<Rule>,
    /// The gap of two classes, in micrometres: one for each layer, in it each first class, and in that
    /// each second class.
    pub gaps: List<i32>,
    pub kind_names: List<Text>,
    pub kinds: List<ViaKind>,
    /// Half the width of a via's pad on its first and its last layer, in micrometres: one for each kind,
    /// and in it each class.
    pub pads: List<i32>,
    /// Half the width of a via's pad on the layers between its first and its last, in micrometres: one
    /// for each kind, and in it each class. It is that of the pad where there are no such layers.
    pub inners: List<i32>,
    pub blocks: List<Block>,
    pub keepouts: List<Keepout>,
    pub net_names: List<Text>,
    pub net_classes: List<ClassId>,
    pub pins: List<Pin>,
}

impl BoardParts {
    /// A board of this name and size, in micrometres, on which nothing stands yet: each list is empty.
    pub fn new(alloc: Global, name: &str, width: i32, height: i32) -> Result<BoardParts, NoMemory>
        ensures { IfOk result (λ parts. parts ≡ empty_parts name.now width height) }
    {
        Ok(BoardParts {
            name: Text::from_str(alloc, name)?,
            width,
            height,
            layers: List::new(alloc),
            classes: List::new(alloc),
            rules: List::new(alloc),
            gaps: List::new(alloc),
            kind_names: List::new(alloc),
            kinds: List::new(alloc),
            pads: List::new(alloc),
            inners: List::new(alloc),
            blocks: List::new(alloc),
            keepouts: List::new(alloc),
            net_names: List::new(alloc),
            net_classes: List::new(alloc),
            pins: List::new(alloc),
        })
    }
}
