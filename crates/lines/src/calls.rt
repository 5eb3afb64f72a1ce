//! The calls of a cutter.

ghost use Rattle.std.specs.Prelude.{◌≡◌, ℕ, ◌≤◌, List, [], ◌∷◌, ◌++◌, map, length, take};
ghost use Rattle.lines.specs.Kept.{keep_bytes, line_of, last_of, After};
ghost use Rattle.lines.specs.Lines.{without_cr, shown, ended_line, last_line, CutRight, CutOnce};
ghost use Rattle.std.specs.Option.{option_map, option_to_list};

use super::{CR, Cutter, LF, SHOWN};
use arrayvec::ArrayVec;

// The part of a text that is handed out.
#[tactic(auto, using(std::proofs::lemmas::List::take_min))]
fn first_shown(text: &[u8]) -> &[u8]
    ensures { result.now ≡ take 81 text.now }
{
    &text[..SHOWN.min(text.len())]
}

// A text without the CR that belongs to the end of its line.
fn before_cr(text: &[u8]) -> &[u8]
    ensures { result.now ≡ without_cr text.now }
{
    match text {
        [before @ .., CR] => before,
        _ => text,
    }
}

impl Cutter {
    /// A cutter at the start of a line.
    pub fn new() -> Cutter
        ensures empty { result ≡ [] }
        ensures constants { (LF ≡ 10) × (CR ≡ 13) × (SHOWN ≡ 81) }
        ensures after { After result [] }
        ensures right { CutRight }
        ensures once { CutOnce }
    {
        Cutter {
            bytes: ArrayVec::new(),
        }
    }

    /// Takes more bytes of the line under way, as many as come.
    // At once, since most lines come whole.
    pub fn keep_all(&mut self, bytes: &[u8])
        ensures kept { self.new ≡ keep_bytes self.old bytes.now }
        ensures fits { length self.new ≤ 82 }
        ensures after { (raw : List ℕ) → After self.old raw → After self.new (raw ++ bytes.now) }
    {
        let room = self.bytes.remaining_capacity();
        let fitting = &bytes[..room.min(bytes.len())];
        let _ = self.bytes.try_extend_from_slice(fitting);
    }

    /// The first 81 bytes of the text of the line that an LF ends now.
    #[tactic(auto, using(crate::proofs::Keeps::line_of_take))]
    pub fn line(&self) -> &[u8]
        ensures value { result.now ≡ line_of self.now }
        ensures fits { length self.now ≤ 82 }
        ensures text { (raw : List ℕ) → After self.now raw → result.now ≡ shown (ended_line raw) }
    {
        first_shown(before_cr(self.bytes.as_slice()))
    }

    /// The first 81 bytes of the last line, where the input ends with no LF after it; none where no byte came since the last LF.
    #[tactic(auto, using(crate::proofs::Keeps::last_of_take))]
    pub fn last(&self) -> Option<&[u8]>
        ensures value { option_map (λ x. x.now) result ≡ last_of self.now }
        ensures fits { length self.now ≤ 82 }
        ensures text { (raw : List ℕ) → After self.now raw → option_to_list (option_map (λ x. x.now) result) ≡ map shown (last_line raw) }
    {
        match self.bytes.as_slice() {
            [] => None,
            text => Some(first_shown(text)),
        }
    }

    /// Begins the next line.
    pub fn clear(&mut self)
        ensures empty { self.new ≡ [] }
        ensures after { After self.new [] }
    {
        self.bytes.clear();
    }
}

#[cfg(test)]
mod tests {
    use super::*;

    fn fed(bytes: &[u8]) -> Cutter {
        let mut cutter = Cutter::new();
        cutter.keep_all(bytes);
        cutter
    }

    #[test]
    fn bytes_come_one_by_one_or_at_once(rt: HostRuntime) {
        let mut cutter = fed(b"a");
        cutter.keep_all(b"b");
        cutter.keep_all(b"cd");
        assert!(rt; cutter.line() == &b"abcd"[..]);
    }

    #[test]
    fn cr_before_lf_is_no_text(rt: HostRuntime) {
        assert!(rt; fed(b"a\rb\r").line() == &b"a\rb"[..]);
    }

    #[test]
    fn cr_at_the_end_of_the_input_is_text(rt: HostRuntime) {
        assert!(rt; fed(b"a\r").last() == Some(&b"a\r"[..]));
    }

    #[test]
    fn long_line_is_cut(rt: HostRuntime) {
        let mut text = [b'a'; 82];
        text[81] = b'b';
        assert!(rt; fed(&text).line() == &text[0..81]);
    }
}
