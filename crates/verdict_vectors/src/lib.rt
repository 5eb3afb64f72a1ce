//! Tests of traces with verdicts, on the ring and the ladder.
#![tactic(auto)]

#[cfg(test)]
mod tests;
