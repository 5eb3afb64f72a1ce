//! A part of the two tables.

/// Where a slot lies: `rows` rows of the row table from `start` on, and one head of the head table.
#[derive(Clone, Copy, PartialEq, Eq, Debug)]
pub struct Place {
    pub start: usize,
    pub rows: usize,
    pub head: usize,
}
