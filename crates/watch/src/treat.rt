//! What is counted and printed of a line.

ghost use Rattle.std.specs.Prelude.{◌≡◌, ℕ, ◌+◌, ◌≤◌, List, ◌++◌, string_bytes, OnOk};
ghost use Rattle.watch.specs.Progress.{lines_after, treated};
ghost use Rattle.watch.specs.Report.{lines_report, most_lines, values_of};

use crate::MOST_LINES;
use crate::counter::Counter;
use std::alloc::AllocError;

// How many lines have been treated, and what counts the values that were read of them.
#[derive(Drop)]
pub(crate) struct Counts<C: Counter> {
    pub(crate) lines: u32,
    pub(crate) counter: C,
    ghost most: { lines ≤ most_lines },
    ghost among: { C.came counter ≤ lines },
}

impl<C: Counter> Counts<C> {
    // Treats one more line, if it is among those that are treated: a value is counted, and a refusal is appended.
    // `text` is the line's text, or the first 81 bytes of it.
    pub(crate) fn treat(&mut self, text: &[u8], out: &mut String) -> Result<(), AllocError>
        ensures lines { self.new.lines ≡ lines_after self.old.lines }
        ensures values { OnOk result ((values : List C.Value) → C.holds self.old.counter values → C.holds self.new.counter (values ++ values_of C.reading (treated self.old.lines text.now))) }
        ensures text { OnOk result (string_bytes out.new ≡ string_bytes out.old ++ lines_report C.reading (self.old.lines + 1) (treated self.old.lines text.now)) }
    {
        if self.lines < MOST_LINES {
            self.lines += 1;
            match C::read(text) {
                Ok(value) => self.counter.take(value),
                Err(error) => writeln!(out, "line {} {error}", self.lines)?,
            }
        }
        Ok(())
    }
}
