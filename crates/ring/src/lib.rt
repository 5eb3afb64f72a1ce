//! The ring: the keeper that stores its whole window.
#![tactic(auto)]

mod answering;
mod figures;
mod keeping;
mod window;

pub use figures::Ring;

#[cfg(test)]
mod tests;
