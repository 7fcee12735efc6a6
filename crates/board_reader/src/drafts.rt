ghost use Rattle.std.specs.Prelude.{◌≡◌};

use crate::forms::Stage;
use crate::gaps::Clear;
use crate::names::Names;
use crate::tables::Entry;
use board_parts::{Block, Command, Keepout, Pin, Rule, ViaKind};
use geo_rect::{ClassId, List, Text};
use std::alloc::Global;

/// What the line `board` says. Before that line it is nothing and zeros.
#[derive(Drop)]
pub struct Heading {
    pub version: u32,
    pub name: Text,
    /// In micrometres, as the height.
    pub width: u32,
    pub height: u32,
}

/// What the lines so far say.
#[derive(Drop)]
pub struct Draft {
    pub stage: Stage,
    pub heading: Heading,
    pub layers: Names,
    pub classes: Names,
    /// Given for a layer and a class.
    pub rules: List<Entry<Rule>>,
    pub clears: List<Clear>,
    pub kind_names: Names,
    pub kinds: List<ViaKind>,
    /// Half widths in micrometres, given for a kind and a class.
    pub pads: List<Entry<i32>>,
    /// The same of the layers between the first and the last of a kind.
    pub inners: List<Entry<i32>>,
    pub blocks: List<Block>,
    pub keepouts: List<Keepout>,
    pub net_names: Names,
    pub net_classes: List<ClassId>,
    pub pins: List<Pin>,
    pub commands: List<Command>,
}

impl Draft {
    ghost use Rattle.board_reader.specs.Drafts.{no_draft};

    /// What no lines say. It takes no memory.
    pub fn new(alloc: Global) -> Draft
        ensures { result ≡ no_draft }
    {
        Draft {
            stage: Stage::Start,
            heading: Heading {
                version: 0,
                name: Text::new(alloc),
                width: 0,
                height: 0,
            },
            layers: Names::new(alloc),
            classes: Names::new(alloc),
            rules: List::new(alloc),
            clears: List::new(alloc),
            kind_names: Names::new(alloc),
            kinds: List::new(alloc),
            pads: List::new(alloc),
            inners: List::new(alloc),
            blocks: List::new(alloc),
            keepouts: List::new(alloc),
            net_names: Names::new(alloc),
            net_classes: List::new(alloc),
            pins: List::new(alloc),
            commands: List::new(alloc),
        }
    }
}
