//! Replies read back: which replies a text spells, and the line that is refused where it spells none.
//!
//! All coordinates are whole micrometres, and a cost is counted in micrometres of wire.
#![tactic(auto)]

mod blocks;
mod certs;
mod conns;
mod fields;
mod first_lines;
mod heads;
mod laws;
mod lines;
mod parts;
mod places;
mod planes;
mod readings;
mod replies;
mod words;

pub use laws::texts_spell_one_list;
pub use readings::{ReadReplies, read_replies};
