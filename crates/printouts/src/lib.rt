//! Tests of what the programs print about inputs that are given as values. They stand in a crate of their own, since `watch` knows
//! no counter, and the counters do not know one another.
#![tactic(auto)]

#[cfg(test)]
mod tests;
