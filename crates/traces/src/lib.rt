//! Traces: any calls, one after the other, on a keeper and on fixed windows over it.
#![tactic(auto)]

mod calls;
mod run;
mod stage;
mod steps;

pub use calls::{Answer, Call};
pub use run::run_trace;
pub use stage::{Stage, Trace};
