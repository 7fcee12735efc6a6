//! Whether replies are those of a run over a board's commands, decided from the replies alone,
//! without a search.
#![tactic(auto)]

mod after;
mod ends;
mod laws;
mod listed;
mod places;
mod routes;
mod states;
mod steps;
mod verdicts;

pub use after::state_after;
pub use ends::{ReplayEnd, replay, replay_commands};
pub use laws::a_wrong_reply_is_no_run;
