//! Where the blocks of a ladder keep their tallies, and which blocks answer for a window: numbers alone, whatever is counted.
#![tactic(auto)]

mod block;
mod cover;
mod layout;
mod level;
mod place;
mod visits;
mod walk;

pub use block::Block;
pub use cover::Cover;
pub use layout::Layout;
pub use place::Place;
pub use visits::Visits;
pub use walk::Walk;

#[cfg(test)]
mod tests;
