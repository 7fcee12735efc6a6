//! The limits of a board text.

/// The greatest width and height of a board, in micrometres.
pub const MAX_SIDE: i32 = 8_388_608;

pub const MAX_LAYERS: usize = 8;

pub const MAX_CLASSES: usize = 4;

pub const MAX_KINDS: usize = 8;

pub const MAX_NETS: usize = 16_384;

pub const MAX_PINS: usize = 32_768;

/// The greatest number of blockages and keep-outs together.
pub const MAX_BLOCKS: usize = 8_192;

/// The greatest half width of a wire, gap, and half width of a via's pad, in micrometres.
pub const MAX_MEASURE: i32 = 65_535;

/// The greatest charge of a via, in micrometres of wire.
pub const MAX_CHARGE: u32 = 65_535;

pub const MAX_COMMANDS: usize = 65_536;

/// The greatest number of bytes of a name.
pub const MAX_NAME: usize = 64;
