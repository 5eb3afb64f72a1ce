//! Where a trace stands.

use crate::calls::Answer;
use keeper::{Entry, Record};
use windows::{Filling, Sliding};

/// Where a trace stands: the keeper alone, or a fixed window over it.
#[derive(Drop)]
pub enum Stage<P: Record> {
    Keeper(P),
    Filling(Filling<P>),
    Sliding(Sliding<P>),
}

/// What became of a trace: where it stands, and what its calls answered, one after the other.
#[derive(Drop)]
pub struct Trace<K, P: Record> {
    pub stage: Stage<P>,
    pub answers: Vec<Answer<Vec<Entry<K>>>>,
}
