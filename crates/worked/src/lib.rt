//! Worked cases: what the rules give, in numbers, for examples that can be followed by hand.
#![tactic(auto)]

#[cfg(test)]
mod runs;
mod table;

pub use table::{Case, worked_cases};
