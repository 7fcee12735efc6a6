//! A plane that keeps its strips as one sorted list: plain, and the measure of faster ones.
#![tactic(auto)]

mod bands;
mod brushes;
mod checks;
mod drafts;
mod outside;
mod parts;
mod pieces;
mod planes;
mod queries;

pub use planes::FlatPlane;

#[cfg(test)]
mod tests;
