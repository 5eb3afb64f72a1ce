//! Which block used a slot last.

use crate::compared::Compared;
use crate::plan::Plan;
use layout::Layout;
use std::alloc::{AllocError, Global};

// The first arrivals, one after the other, where the span is short. Before each, the blocks that would answer for a window, of
// whatever length, have to be the last that took their slots; then its own blocks take theirs.
pub(crate) fn compare(
    layout: &Layout,
    plan: &Plan,
    compared: &mut Compared,
    heap: Global,
) -> Result<(), AllocError> {
    let mut owners: Vec<u32> = vec![in heap; u32::MAX; plan.heads]?;
    for arrival in 0..plan.few_arrivals() {
        for window in 0..plan.longest().min(arrival).saturating_add(1) {
            for block in layout.cover(arrival, window).blocks {
                compared.note(owners.get(block.place().head) == Some(&block.first()));
            }
        }
        for block in layout.visits(arrival) {
            if let Some(owner) = owners.get_mut(block.place().head) {
                *owner = block.first();
            }
        }
    }
    Ok(())
}
