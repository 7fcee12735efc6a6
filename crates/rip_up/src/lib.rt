//! The planes after shapes are gone.
#![tactic(auto)]

mod removes;

pub use removes::remove;
