//! The calls of a trace on soundings, and what they answer.

use likeness::SoundingKey;
use traces::{Answer, Call};
use verdicts::{Judgement, VerdictRefusal};

/// A call of a trace on soundings.
#[derive(Clone, Copy, Debug)]
pub enum SoundingCall {
    /// One that keepers of all kinds of key have.
    Plain(Call<SoundingKey>),
    /// Asks for the verdict on a class, from a sounder's readings. Every state has it.
    Ask { sounder: [u8; 2], class: u8 },
}

/// What a call of a trace on soundings answers. Of a list it tells an `L`.
#[derive(Debug, Drop)]
pub enum SoundingAnswer<L> {
    /// What a plain call answers.
    Answered(Answer<L>),
    /// A verdict with its sums, or why there is none.
    Judged(Result<Judgement, VerdictRefusal>),
}
