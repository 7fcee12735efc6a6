//! Laws of the steps that commands take: each step keeps the rules of the board, each reply can be
//! written and read back, and nothing that is made breaks a rule. The functions do nothing: their
//! contracts are the laws.
#![tactic(auto)]

mod additions;
mod replies;
mod states;
mod violations;

pub use additions::connections_bring_their_shapes;
pub use replies::replies_are_regular;
pub use states::steps_keep_the_rules;
pub use violations::what_is_made_breaks_no_rule;
