//! From a reader to a writer.

ghost use Rattle.std.specs.Prelude.{◌≡◌, List, ℕ, [], ◌++◌, Some, OnOk, string_bytes};
ghost use Rattle.std.specs.Io.KnownBytes.{Appends};
ghost use Rattle.watch.specs.Progress.{Fed};
ghost use Rattle.watch.specs.Report.{report};
ghost use Rattle.watch.specs.Stream.{ReadAsNeeded};

use crate::Watch;
use crate::counter::Counter;
use std::alloc::Global;
use std::io;
use std::io::{ErrorKind, Read, Write};

/// How many bytes are read at once.
const PIECE: usize = 65536;

// Writes the text, and empties it.
fn write_text<W: Write>(text: &mut String, output: &mut W) -> io::Result<()>
    ensures written { OnOk result (Appends (W.contents output.old) (W.contents output.new) (string_bytes text.old)) }
    ensures empty { OnOk result (string_bytes text.new ≡ []) }
{
    output.write_all(text.as_bytes())?;
    text.clear();
    Ok(())
}

// Writes what is printed where the input ends.
fn write_end<C: Counter, W: Write>(
    watch: Watch<C>,
    out: &mut String,
    output: &mut W,
) -> io::Result<()>
    ensures { (input said before : List ℕ) → Fed C.reading C.holds watch input said → string_bytes out.old ≡ [] → W.contents output.old ≡ Some (before ++ said)
        → OnOk result (W.contents output.new ≡ Some (before ++ report C.reading C.ending input)) }
{
    watch.finish(out)?;
    write_text(out, output)
}

/// Reads the input to its end, or to the last line that is treated, and writes what is printed about it: once for each piece
/// that was read, and once at the end.
pub fn run<C: Counter, R: Read, W: Write>(
    input: &mut R,
    output: &mut W,
    heap: Global,
) -> io::Result<()>
    ensures written { (bytes before : List ℕ) → R.remaining input.old ≡ Some bytes → W.contents output.old ≡ Some before
        → OnOk result (W.contents output.new ≡ Some (before ++ report C.reading C.ending bytes)) }
    ensures read { (bytes : List ℕ) → R.remaining input.old ≡ Some bytes → OnOk result ((rest : List ℕ) × (R.remaining input.new ≡ Some rest) × ReadAsNeeded bytes rest) }
{
    let mut piece = vec![in heap; 0u8; PIECE]?;
    let mut out = String::with_capacity(heap, PIECE)?;
    let mut watch = Watch::<C>::new(heap)?;
    // The pieces are counted, since every function has to end.
    for _ in 0..u64::MAX {
        if watch.is_done() {
            return write_end(watch, &mut out, output);
        }
        let count = input.read(&mut piece)?;
        if count == 0 {
            return write_end(watch, &mut out, output);
        }
        watch.feed(&piece[..count], &mut out)?;
        write_text(&mut out, output)?;
    }
    Err(io::Error::new(
        ErrorKind::TimedOut,
        "the input did not end within 2^64 - 1 pieces",
    ))
}
