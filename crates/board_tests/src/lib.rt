//! Tests of the crates of the board and of what is written of it: its reader, its model, its grown shapes, its
//! violations, its pours, groups of copper and layers, and the words of a call. Each board is told as a text.
#![tactic(auto)]

#[cfg(test)]
mod boards;
#[cfg(test)]
mod copper;
#[cfg(test)]
mod generated;
#[cfg(test)]
mod grown;
#[cfg(test)]
mod layers;
#[cfg(test)]
mod models;
#[cfg(test)]
mod pours;
#[cfg(test)]
mod texts;
#[cfg(test)]
mod upgraded;
#[cfg(test)]
mod violated;
#[cfg(test)]
mod words;
