//! Tests of fixed windows and of traces over the ring and the ladder. They stand in a crate of their own, since none of the crates
//! that they test knows both a window and a keeper.
#![tactic(auto)]

#[cfg(test)]
mod tests;
