//! The ladder: the keeper that has, in place of the window's keys, tallies of blocks of arrivals at every scale.
#![tactic(auto)]

mod answering;
mod asking;
mod counting;
mod figures;
mod keeping;
mod putting;
mod sketch;

pub use figures::Ladder;

#[cfg(test)]
mod tests;
