//! A board text of either version, written as one of the second.
#![tactic(auto)]

mod upgrades;

pub use upgrades::{an_upgraded_text_is_read, upgrade};
