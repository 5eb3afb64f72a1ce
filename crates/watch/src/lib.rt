//! What is printed about an input, as values: bytes in, text out.
//!
//! A line of the input that cannot be read is refused: `line 7 refused 13 at 18` gives its number from 1, the refusal's number
//! and the column. At the end stands what a counter says of all that was read: `readings 42`.
//! The first million lines are treated, and what follows them is ignored.
#![tactic(auto)]

ghost use Rattle.std.specs.Prelude.{◌≤◌, length};

use lines::Cutter;
use std::marker::Model;

mod calls;
mod counter;
mod stream;
mod treat;

pub use counter::Counter;
pub use stream::run;
use treat::Counts;

/// How many lines of an input are treated at most.
pub const MOST_LINES: u32 = 1_000_000;

/// The treatment of an input, as far as it has come.
#[derive(Drop)]
pub struct Watch<C: Counter> {
    cutter: Cutter,
    counts: Counts<C>,
    ghost fits: { length cutter ≤ 82 },
}

// A watch is how far it has come, and its counter.
impl<C: Counter> Model for Watch<C> {
    ghost use Rattle.watch.specs.Progress.{Watched};

    ghost Value = { Watched C };

    ghost view = { λ watch. record { progress = record { kept = watch.cutter; lines = watch.counts.lines }; counter = watch.counts.counter } };
}
