//! The generator of boards: for each number of nets one board text, in which each two neighbouring
//! nets must cross.
#![tactic(auto)]

mod generating;
mod parts;
mod shapes;

pub use generating::generate;
