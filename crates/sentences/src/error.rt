//! Why bytes are refused.

ghost use Rattle.std.specs.Prelude.{◌≡◌, Some};
ghost use Rattle.sentences.specs.Refusals.{column_of, number_of, refusal_text};

use std::error::Error;
use std::fmt;

/// Why bytes are refused, with the column that shows it. Columns count from 1.
#[derive(Clone, Copy, PartialEq, Eq, Debug)]
pub enum SentenceError {
    /// The first wrong column, or the one after the end where bytes are missing.
    Shape { column: usize },
    /// The sum is another; the column of the checksum's first digit.
    Checksum { column: usize },
    /// The address does not end in DPT.
    NotDepth,
    /// The start of the field that keeps the clearance from being read.
    NoClearance { column: usize },
}

impl SentenceError {
    /// The refusal's number, 12 to 15.
    // A variant that carries its column has no discriminant, so the numbers stand in a match.
    pub fn number(&self) -> u8
        ensures { result ≡ number_of self.now }
    {
        match self {
            SentenceError::Shape { .. } => 12,
            SentenceError::Checksum { .. } => 13,
            SentenceError::NotDepth => 14,
            SentenceError::NoClearance { .. } => 15,
        }
    }

    /// The column that the refusal points at.
    pub fn column(&self) -> usize
        ensures { result ≡ column_of self.now }
    {
        match self {
            SentenceError::Shape { column }
            | SentenceError::Checksum { column }
            | SentenceError::NoClearance { column } => *column,
            SentenceError::NotDepth => 2,
        }
    }
}

impl fmt::Display for SentenceError {
    ghost output = { λ error. Some (refusal_text error) };

    fn fmt<W: fmt::Write>(&self, f: &mut fmt::Formatter<W>) -> fmt::Result {
        let number = self.number();
        let column = self.column();
        write!(f, "refused {number} at {column}")
    }
}

impl Error for SentenceError {}
