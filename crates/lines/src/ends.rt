//! Where lines end.

ghost use Rattle.std.specs.Prelude.{MatchOption};
ghost use Rattle.lines.specs.Ends.{IsPlain, PartsAtLf};

use super::LF;
use memchr::memchr;

/// What stands before the first LF, and what follows it; none where there is no LF.
pub fn split_at_lf(bytes: &[u8]) -> Option<(&[u8], &[u8])>
    ensures { MatchOption result (IsPlain bytes.now) (λ parts. PartsAtLf bytes.now parts.0.now parts.1.now) }
{
    let end = memchr(LF, bytes)?;
    Some((&bytes[..end], &bytes[end + 1..]))
}

#[cfg(test)]
mod tests {
    use super::*;

    #[test]
    fn first_of_two(rt: HostRuntime) {
        assert!(rt; split_at_lf(b"a\nb\n") == Some((&b"a"[..], &b"b\n"[..])));
        assert!(rt; split_at_lf(b"a\r") == None);
    }
}
