//! A board as it is told: its layers, classes, rules, kinds of vias, pads, areas, nets and pins, the
//! rules that these keep, their names, and the commands that a board text gives.
//!
//! All measures are whole micrometres.
#![tactic(auto)]

mod accessors;
mod boards;
mod commands;
mod gaps;
mod limits;
mod name_index;
mod net_pins;
mod parts;

pub use boards::Board;
pub use commands::Command;
pub use limits::{
    MAX_BLOCKS, MAX_CHARGE, MAX_CLASSES, MAX_COMMANDS, MAX_KINDS, MAX_LAYERS, MAX_MEASURE,
    MAX_NAME, MAX_NETS, MAX_PINS, MAX_SIDE,
};
pub use parts::{Block, BoardParts, Keepout, Pin, Rule, ViaKind};
