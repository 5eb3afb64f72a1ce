//! The shape of a sentence, and its parts by it.

ghost use Rattle.std.specs.Prelude.{◌≡◌, IsTrue, None, true};
ghost use Rattle.std.specs.List.{AllByRecursion};
ghost use Rattle.sentences.specs.Format.{CommaFirst};
ghost use Rattle.sentences.specs.Bytes.{is_address_byte, is_field_byte, is_hex_digit};
ghost use Rattle.sentences.specs.Reader.{address_bytes, fields_of, sum_checked};
ghost use Rattle.sentences.specs.Shape.{after, end_fault, shape_fault, unless_fault};

use crate::error::SentenceError;
use crate::sums::{checksum, hex_digits};
use std::marker::Model;

// A sentence has at most this many bytes.
const LONGEST: usize = 80;

// What the next byte of a sentence has to be.
#[derive(Clone, Copy)]
enum Expect {
    Dollar,
    // a byte of the address, with so many to come after it
    Address(u8),
    // the comma or the star after the address
    Separator,
    // a byte of the fields, or the star
    Fields,
    HighDigit,
    LowDigit,
    End,
}

// Capitals and digits.
fn is_address_byte(byte: u8) -> bool
    ensures { result ≡ is_address_byte byte }
{
    matches!(byte, b'0'..=b'9' | b'A'..=b'Z')
}

// Printable ASCII without `$`, `!` and `*`.
fn is_field_byte(byte: u8) -> bool
    ensures { result ≡ is_field_byte byte }
{
    matches!(byte, 0x20..=0x7E) && !matches!(byte, b'$' | b'!' | b'*')
}

// Digits and the letters A to F, as capitals.
fn is_hex_digit(byte: u8) -> bool
    ensures { result ≡ is_hex_digit byte }
{
    matches!(byte, b'0'..=b'9' | b'A'..=b'F')
}

impl Expect {
    // What has to follow once `byte` came; None where it is wrong.
    fn after(self, byte: u8) -> Option<Expect>
        ensures { result ≡ after self byte }
    {
        match self {
            Expect::Dollar if byte == b'$' => Some(Expect::Address(4)),
            Expect::Address(0) if is_address_byte(byte) => Some(Expect::Separator),
            Expect::Address(left) if is_address_byte(byte) => Some(Expect::Address(left - 1)),
            Expect::Separator if byte == b',' => Some(Expect::Fields),
            Expect::Fields if is_field_byte(byte) => Some(Expect::Fields),
            Expect::Separator | Expect::Fields if byte == b'*' => Some(Expect::HighDigit),
            Expect::HighDigit if is_hex_digit(byte) => Some(Expect::LowDigit),
            Expect::LowDigit if is_hex_digit(byte) => Some(Expect::End),
            _ => None,
        }
    }

    // Whether the bytes may end here; `column` is the one after the last.
    fn end(self, column: usize) -> Result<(), SentenceError>
        ensures { result ≡ unless_fault (end_fault self column) tt }
    {
        match self {
            Expect::End => Ok(()),
            _ => Err(SentenceError::Shape { column }),
        }
    }
}

// Refuses the first wrong column.
fn check_columns(bytes: &[u8]) -> Result<(), SentenceError>
    ensures { result ≡ unless_fault (shape_fault bytes.now) tt }
{
    let mut expect = Expect::Dollar;
    for (column, byte) in (1..).zip(bytes) {
        if column > LONGEST {
            return Err(SentenceError::Shape { column });
        }
        expect = expect.after(*byte).ok_or(SentenceError::Shape { column })?;
    }
    expect.end(bytes.len() + 1)
}

// Whether these can be the fields of a sentence: none, or a comma first.
fn are_fields(bytes: &[u8]) -> bool
    ensures { IsTrue result → CommaFirst bytes.now × AllByRecursion (λ b. is_field_byte b ≡ true) bytes.now }
{
    matches!(bytes, [] | [b',', ..]) && bytes.iter().all(|byte| is_field_byte(*byte))
}

// Whether these are the address, the fields and the digits of some sentence.
fn are_parts(address: [u8; 5], fields: &[u8], digits: [u8; 2]) -> bool
    ensures { IsTrue result → AllByRecursion (λ b. is_address_byte b ≡ true) address × CommaFirst fields.now × AllByRecursion (λ b. is_field_byte b ≡ true) fields.now × AllByRecursion (λ b. is_hex_digit b ≡ true) digits }
{
    address.iter().all(|byte| is_address_byte(*byte))
        && are_fields(fields)
        && digits.iter().all(|byte| is_hex_digit(*byte))
}

// Whether each part of bytes, by where it has to lie, is right. Then no column is wrong.
fn is_shaped(bytes: &[u8]) -> bool
    ensures { IsTrue result → shape_fault bytes.now ≡ None }
{
    match bytes {
        [b'$', a, b, c, d, e, fields @ .., b'*', high, low] if bytes.len() <= LONGEST => {
            are_parts([*a, *b, *c, *d, *e], fields, [*high, *low])
        }
        _ => false,
    }
}

// Bytes that have the shape of a sentence. The shortest has `$`, an address, `*` and two digits.
#[derive(Drop)]
pub(crate) struct ShapedBytes<'a> {
    bytes: &'a [u8],
}

impl<'a> Model for ShapedBytes<'a> {
    ghost use Rattle.std.specs.Prelude.{List, ℕ, ◌≤◌, length};

    ghost Value = { List ℕ };

    ghost view = { λ s. s.bytes.now };

    ghost invariant = { λ s. (9 ≤ length s.bytes.now) × (length s.bytes.now ≤ 80) };
}

impl<'a> ShapedBytes<'a> {
    // Refuses the first wrong column.
    pub(crate) fn read(bytes: &'a [u8]) -> Result<Self, SentenceError>
        ensures { result ≡ unless_fault (shape_fault bytes.now) bytes.now }
    {
        // Most sentences are right, and need no look at their columns one by one.
        if !is_shaped(bytes) {
            check_columns(bytes)?;
        }
        Ok(ShapedBytes { bytes })
    }

    // Refuses another sum than the last two bytes write, of what stands between `$` and `*`.
    pub(crate) fn check_sum(&self) -> Result<(), SentenceError>
        ensures { result ≡ sum_checked self.now }
    {
        let star = self.bytes.len() - 3;
        let sum = checksum(&self.bytes[1..star]);
        if !self.bytes.ends_with(&hex_digits(sum)) {
            return Err(SentenceError::Checksum { column: star + 2 });
        }
        Ok(())
    }

    // The five bytes after the `$`.
    pub(crate) fn address(&self) -> [u8; 5]
        ensures { result ≡ address_bytes self.now }
    {
        *self.bytes[1..].first_chunk().unwrap()
    }

    // What stands between the address and the `*`.
    pub(crate) fn fields(&self) -> &'a [u8]
        ensures { result.now ≡ fields_of self.now }
    {
        &self.bytes[6..self.bytes.len() - 3]
    }
}
