//! What linewatch counts: the kinds of sentence, over a window of the latest addresses.
#![tactic(auto)]

mod kinds;

pub use kinds::Kinds;
use watch::Watch;

/// What linewatch says: which kinds of sentence are many.
pub type Linewatch = Watch<Kinds>;
