//! The slots of a setting, counted out.

use layout::{Block, Place};
use std::alloc::{AllocError, Global};

// Spans below this one are short: so many arrivals as three of their longest windows are gone through one by one.
const LONG_SPAN: u32 = 8;

// A level: how many arrivals its blocks hold, and the places of its slots.
#[derive(Drop)]
pub(crate) struct Level {
    size: u32,
    slots: Vec<Place>,
}

// The levels of all scales in order, and the rows and heads that they take. `top` is the number of a scale's last level.
#[derive(Drop)]
pub(crate) struct Plan {
    pub(crate) top: u32,
    pub(crate) span: u32,
    pub(crate) levels: Vec<Level>,
    pub(crate) rows: usize,
    pub(crate) heads: usize,
}

// A number doubled so many times.
pub(crate) fn doubled(number: u32, times: u32) -> u32 {
    let mut result = number;
    for _ in 0..times {
        result = result.saturating_mul(2);
    }
    result
}

impl Plan {
    pub(crate) fn of(accuracy: u32, span: u32, heap: Global) -> Result<Plan, AllocError> {
        let top = accuracy.saturating_add(3);
        let mut plan = Plan {
            top,
            span,
            levels: Vec::new(heap),
            rows: 0,
            heads: 0,
        };
        for scale in top..span.saturating_add(1) {
            for level in 0..top.saturating_add(1) {
                let size = doubled(1, scale.saturating_sub(top).saturating_add(level));
                let slots = plan.count_out(level, heap)?;
                plan.levels.push(Level { size, slots })?;
            }
        }
        Ok(plan)
    }

    // How many arrivals are gone through one by one.
    pub(crate) fn few_arrivals(&self) -> u32 {
        if self.span < LONG_SPAN {
            doubled(3, self.span)
        } else {
            0
        }
    }

    // How many keys the longest windows have.
    pub(crate) fn longest(&self) -> u32 {
        doubled(1, self.span)
    }

    // The next slots, of a level: in as many rows and heads as they need.
    fn count_out(&mut self, level: u32, heap: Global) -> Result<Vec<Place>, AllocError> {
        let blocks = doubled(1, self.top.saturating_sub(level));
        let rows = doubled(self.top.saturating_add(1), level).saturating_sub(1) as usize;
        let mut slots = Vec::new(heap);
        for _ in 0..blocks.saturating_add(1) {
            slots.push(Place {
                start: self.rows,
                rows,
                head: self.heads,
            })?;
            self.rows = self.rows.saturating_add(rows);
            self.heads = self.heads.saturating_add(1);
        }
        Ok(slots)
    }
}

impl Level {
    // Whether a block is the one of this level that an arrival falls into, and its slot lies where that was counted out.
    pub(crate) fn is_level_of(&self, block: &Block, arrival: u32) -> bool {
        let number = arrival.checked_div(self.size).unwrap_or(0);
        let turn = (number as usize).checked_rem(self.slots.len()).unwrap_or(0);
        let first = number.saturating_mul(self.size);
        let lies_there = match self.slots.get(turn) {
            Some(place) => *place == block.place(),
            None => false,
        };
        block.size() == self.size && block.first() == first && lies_there
    }
}
