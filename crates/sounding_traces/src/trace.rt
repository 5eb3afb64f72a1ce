//! What became of a trace on soundings.

use crate::calls::SoundingAnswer;
use keeper::{Entry, Record};
use likeness::SoundingKey;
use traces::Stage;

/// What became of a trace on soundings: where it stands, and what its calls answered, one after the other.
#[derive(Drop)]
pub struct SoundingTrace<P: Record> {
    pub stage: Stage<P>,
    pub answers: Vec<SoundingAnswer<Vec<Entry<SoundingKey>>>>,
}
