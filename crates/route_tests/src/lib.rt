//! Tests of the crates of the planes of a board and of the search: labels of planes, least connections and their
//! certificates. Each board is told as a text.
#![tactic(auto)]

#[cfg(test)]
mod boards;
#[cfg(test)]
mod certificates;
#[cfg(test)]
mod labels;
#[cfg(test)]
mod places;
#[cfg(test)]
mod searches;
