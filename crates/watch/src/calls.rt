//! The calls of a watch.

ghost use Rattle.std.specs.Prelude.{◌≡◌, ℕ, ◌+◌, ◌≤◌, List, [], ◌++◌, length, string_bytes, IfOk, OnOk, ◌==◌};
ghost use Rattle.lines.specs.Lines.{CutRight};
ghost use Rattle.watch.specs.Progress.{byte_texts, bytes_text, bytes_values, Fed, kept_more, last_text, start, take_byte, take_bytes};
ghost use Rattle.watch.specs.Report.{lines_report, most_lines, report, values_of};

use crate::counter::Counter;
use crate::treat::Counts;
use crate::{MOST_LINES, Watch};
use lines::{Cutter, split_at_lf};
use std::alloc::{AllocError, Global};

impl<C: Counter> Watch<C> {
    /// A watch at the start of an input.
    pub fn new(heap: Global) -> Result<Watch<C>, AllocError>
        ensures value { IfOk result (λ watch. watch.progress ≡ start) }
        ensures fed { IfOk result (λ watch. Fed C.reading C.holds watch [] []) }
    {
        Ok(Watch {
            cutter: Cutter::new(),
            counts: Counts {
                lines: 0,
                counter: C::new(heap)?,
            },
        })
    }

    // Takes what is left of the line under way, which an LF ends then, and treats it.
    fn end_line(&mut self, rest: &[u8], out: &mut String) -> Result<(), AllocError>
        ensures value { OnOk result (self.new.progress ≡ take_byte (kept_more self.old.progress rest.now) 10) }
        ensures counted { OnOk result ((values : List C.Value) → C.holds self.old.counter values → C.holds self.new.counter (values ++ values_of C.reading (byte_texts (kept_more self.old.progress rest.now) 10))) }
        ensures text { OnOk result (string_bytes out.new ≡ string_bytes out.old ++ lines_report C.reading (self.old.progress.lines + 1) (byte_texts (kept_more self.old.progress rest.now) 10)) }
    {
        self.cutter.keep_all(rest);
        self.counts.treat(self.cutter.line(), out)?;
        self.cutter.clear();
        Ok(())
    }

    /// Takes the next piece of the input, and appends what is printed about it.
    pub fn feed(&mut self, piece: &[u8], out: &mut String) -> Result<(), AllocError>
        ensures value { OnOk result (self.new.progress ≡ take_bytes self.old.progress piece.now) }
        ensures counted { OnOk result ((values : List C.Value) → C.holds self.old.counter values → C.holds self.new.counter (values ++ bytes_values C.reading self.old.progress piece.now)) }
        ensures text { OnOk result (string_bytes out.new ≡ string_bytes out.old ++ bytes_text C.reading self.old.progress piece.now) }
        ensures fed { (input said : List ℕ) → Fed C.reading C.holds self.old input said → OnOk result (Fed C.reading C.holds self.new (input ++ piece.now) (said ++ bytes_text C.reading self.old.progress piece.now)) }
    {
        let mut rest = piece;
        while let Some((line, behind)) = split_at_lf(rest) {
            self.end_line(line, out)?;
            rest = behind;
        }
        self.cutter.keep_all(rest);
        Ok(())
    }

    /// Whether the last line that is treated has come: nothing that follows counts, so the input need not be read on.
    pub fn is_done(&self) -> bool
        ensures value { result ≡ (self.now.progress.lines == most_lines) }
        ensures most { self.now.progress.lines ≤ most_lines }
        ensures among { C.came self.now.counter ≤ self.now.progress.lines }
        ensures fits { length self.now.progress.kept ≤ 82 }
    {
        self.counts.lines == MOST_LINES
    }

    // What `finish` does. It stands apart, so that the laws on `finish` are owed at one return and not at two.
    fn print_end(self, out: &mut String) -> Result<(), AllocError>
        ensures { (values : List C.Value) → C.holds self.counter values → OnOk result (string_bytes out.new ≡ string_bytes out.old ++ last_text C.reading C.ending self.progress values) }
    {
        let Watch { cutter, mut counts } = self;
        if let Some(text) = cutter.last() {
            counts.treat(text, out)?;
        }
        counts.counter.print_end(out)
    }

    /// Appends what is printed where the input ends: about a last line that no LF ends, and what the counter says.
    pub fn finish(self, out: &mut String) -> Result<(), AllocError>
        ensures value { (values : List C.Value) → C.holds self.counter values → OnOk result (string_bytes out.new ≡ string_bytes out.old ++ last_text C.reading C.ending self.progress values) }
        ensures report { (input said : List ℕ) → Fed C.reading C.holds self input said → said ++ last_text C.reading C.ending self.progress (bytes_values C.reading start input) ≡ report C.reading C.ending input }
        ensures rest { (input said more : List ℕ) → Fed C.reading C.holds self input said → self.progress.lines ≡ most_lines → report C.reading C.ending (input ++ more) ≡ report C.reading C.ending input }
        ensures cut { CutRight }
    {
        self.print_end(out)
    }
}
