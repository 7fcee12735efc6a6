//! The search over strips for a cheapest walk of a net, with a certificate of every answer.
//!
//! It is the search of P. E. Hart, N. J. Nilsson and B. Raphael, "A Formal Basis for the Heuristic
//! Determination of Minimum Cost Paths", 1968, over fronts in strips and not over nodes: what is settled
//! next is the front whose cost and least distance to a target box are together the least. All coordinates
//! are whole micrometres, and a cost is counted in micrometres of wire.
#![tactic(auto)]

mod answers;
mod ends;
mod fronts;
mod goals;
mod keys;
mod pushes;
mod searches;

pub use answers::{Found, search};
