//! The checksum, and how it is written.

ghost use Rattle.std.specs.Prelude.{◌≡◌, ◌<◌};
ghost use Rattle.sentences.specs.Bytes.{hex_digit, hex_text, sum_of};

// Letters as capitals.
const HEX_DIGITS: [u8; 16] = *b"0123456789ABCDEF";

/// The checksum of a part of a sentence: the exclusive or of its bytes.
pub fn checksum(part: &[u8]) -> u8
    ensures { result ≡ sum_of part.now }
{
    part.iter().fold(0, |sum, byte| sum ^ byte)
}

// The hexadecimal digit of a number below 16.
fn hex_digit(value: u8) -> u8
    requires { value < 16 }
    ensures { result ≡ hex_digit value }
{
    HEX_DIGITS[value as usize]
}

// A byte in two hexadecimal digits.
pub(crate) fn hex_digits(byte: u8) -> [u8; 2]
    ensures { result ≡ hex_text byte }
{
    [hex_digit(byte / 16), hex_digit(byte % 16)]
}
