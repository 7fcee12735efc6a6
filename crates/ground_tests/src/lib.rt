//! Tests of the crates of the ground and of the planes: streams in memory, sides, numbered tiles, their cuts
//! and joins, painted planes, and the queue and the table of fronts.
#![tactic(auto)]

#[cfg(test)]
mod cuts;
#[cfg(test)]
mod fronts;
#[cfg(test)]
mod sides;
#[cfg(test)]
mod streams;
#[cfg(test)]
mod tiles;
