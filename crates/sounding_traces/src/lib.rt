//! Whole traces on soundings, with verdicts.
#![tactic(auto)]

mod asking;
mod calls;
mod run;
mod trace;

pub use asking::verdict_at;
pub use calls::{SoundingAnswer, SoundingCall};
pub use run::run_sounding_trace;
pub use trace::SoundingTrace;
