//! Cuts a stream of bytes into lines. However long a line is, the memory for it stays the same.
//!
//! A line ends with LF, perhaps with a CR directly before it, which is then part of the end and not of the line's text.
//! A CR elsewhere is an ordinary byte.
//! At the end of the input, bytes after the last LF are one more line, if there is at least one.
//! A line is judged by the first 81 bytes of its text, so no more of it are handed out.
#![tactic(auto)]

use arrayvec::ArrayVec;
use std::marker::Model;

mod calls;
mod ends;

pub use ends::split_at_lf;

/// The line feed, which ends a line.
pub const LF: u8 = 10;

/// The carriage return, which belongs to the end of a line where an LF follows.
pub const CR: u8 = 13;

/// How many bytes of a line's text are handed out at most.
pub const SHOWN: usize = 81;

/// How many bytes of a line are kept at most: one more than are handed out, since the last of them may be the CR of the end.
const KEPT: usize = 82;

/// The line under way: its first bytes since the last LF.
#[derive(Drop)]
pub struct Cutter {
    bytes: ArrayVec<u8, KEPT>,
}

// A cutter is the list of the bytes that it keeps.
impl Model for Cutter {
    ghost use Rattle.std.specs.Prelude.{List, ℕ};

    ghost Value = { List ℕ };

    ghost view = { λ cutter. cutter.bytes.items };
}
