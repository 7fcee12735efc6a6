//! The words that the program is called with: what they ask for, and whether the names and numbers
//! among them are those of a board.
#![tactic(auto)]

mod asking;
mod faults;
mod laws;
mod names;
mod numbers;
mod parts;
mod plans;
mod requests;
mod subjects;
mod verbs;

pub use asking::request_of;
pub use laws::requests_are_one;
pub use plans::{Plan, PlanError, plan_of};
pub use requests::{Corners, Report, Request, Sequel};
pub use subjects::{Subject, subject_of};
