//! Whole traces on the ladder.
#![tactic(auto)]

mod run;
mod soundings;

pub use run::run_ladder_trace;
pub use soundings::run_sounding_ladder_trace;
