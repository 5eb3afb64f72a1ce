//! What answers for a window.

use crate::walk::Walk;

/// Blocks that lie inside a window, one behind the other, and how many of its arrivals are in none of them.
#[derive(Debug, Drop)]
pub struct Cover {
    pub blocks: Walk,
    pub ignored: u32,
}
