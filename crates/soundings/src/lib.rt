//! What bedwatch counts: the readings, by sounder and band, over a window of the latest.
#![tactic(auto)]

mod soundings;

pub use soundings::Soundings;
use watch::Watch;

/// What bedwatch says: how many readings its window holds, and for which classes of ferry the berth has water.
pub type Bedwatch = Watch<Soundings>;
