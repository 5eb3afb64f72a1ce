//! Fixed windows: a keeper whose window is filled to a size, and then keeps it.
#![tactic(auto)]

mod filling;
mod fixed;
mod refusal;
mod sliding;

pub use fixed::{Filling, Sliding};
pub use refusal::{Returned, WindowRefusal};
