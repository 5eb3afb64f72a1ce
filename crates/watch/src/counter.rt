//! What makes a type a counter.

ghost use Rattle.std.specs.Prelude.{◌≡◌, ℕ, List, [], ◌++◌, take, Result, IfOk, OnOk, string_bytes};
ghost use Rattle.sentences.specs.declared.error.SentenceError.{SentenceError};
ghost use Rattle.watch.specs.Counters.{Takes};

use sentences::SentenceError;
use std::alloc::{AllocError, Global};

/// What a program reads of its lines, and what it says at the end of all that it read.
pub trait Counter: Drop {
    /// What is read of a line.
    type Value;

    // What a text is read as.
    ghost reading: { List ℕ → Result Self.Value SentenceError };

    // How many values have come.
    ghost came: { Self → ℕ };

    // When a counter is right for these values, in the order in which they came.
    ghost holds: { Self → List Self.Value → Type 0 };

    // What is printed at the end about these values.
    ghost ending: { List Self.Value → List ℕ };

    /// A counter to which nothing has come. What it needs of memory, it takes from the heap.
    fn new(heap: Global) -> Result<Self, AllocError>
        ensures { IfOk result (λ counter. (came counter ≡ 0) × holds counter []) };

    /// Reads the text of a line, or the first 81 bytes of it.
    fn read(text: &[u8]) -> Result<Self::Value, SentenceError>
        ensures { result ≡ reading text.now };

    /// One value more.
    fn take(&mut self, value: Self::Value)
        ensures { Takes reading came holds self.old value self.new };

    /// Appends what is printed at the end.
    fn print_end(&self, out: &mut String) -> Result<(), AllocError>
        ensures { (values : List Self.Value) → holds self.now values → OnOk result (string_bytes out.new ≡ string_bytes out.old ++ ending values) };

    // A line is read by the first 81 bytes of its text.
    ghost decided: { (text : List ℕ) → reading (take 81 text) ≡ reading text };
}
