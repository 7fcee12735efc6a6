//! Tests of the program from bytes to bytes, over streams in memory, and of the sessions below it: texts and
//! answers that were worked out by hand.
#![tactic(auto)]

#[cfg(test)]
mod boards;
#[cfg(test)]
mod calls;
#[cfg(test)]
mod checked;
#[cfg(test)]
mod connector;
#[cfg(test)]
mod faults;
#[cfg(test)]
mod refused;
#[cfg(test)]
mod reported;
#[cfg(test)]
mod routed;
#[cfg(test)]
mod sessions;
