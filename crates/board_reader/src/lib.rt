//! The reader of the board text: a board and its commands, or the first line that breaks a rule.
#![tactic(auto)]

mod additions;
mod checks;
mod drafts;
mod finishing;
mod forms;
mod gaps;
mod inputs;
mod laws;
mod names;
mod reading;
mod refusals;
mod splits;
mod tables;

pub use inputs::Input;
pub use laws::{refusals_are_first, splits_are_first};
pub use reading::read_input;
pub use refusals::{ReadInput, Refusal, RefusalKind};
pub use splits::{Split, count_lines, split_check};
