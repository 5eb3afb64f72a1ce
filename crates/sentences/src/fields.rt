//! The fields of a depth sentence, and the clearance that they give.

ghost use Rattle.std.specs.Prelude.{◌≡◌, ◌+◌, ◌-◌, ◌^◌, ◌<◌, ◌≤◌, length, IfSome, IfOk, MatchResult};
ghost use Rattle.std.specs.List.{prefix_len};
ghost use Rattle.std.specs.Option.{ok_or};
ghost use Rattle.sentences.specs.Bytes.{is_digit};
ghost use Rattle.sentences.specs.Fields.{clearance_of, decimal_few, extra_of, hundredths_of, keel_of, metres_of, next_field, not_comma, unless_extra};

use crate::error::SentenceError;

// The column where the fields of a sentence begin.
const FIELDS_AT: usize = 7;

// What a digit is worth. Not `to_digit`, whose `Option` asks again what is known of the byte.
fn digit_value(byte: u8) -> u32
    ensures { result ≡ byte - 48 }
{
    byte.saturating_sub(b'0') as u32
}

// One to four digits as a number. Not a `try_fold` with checked sums: tried, and it stayed open that its answer is
// `decimal_few digits.now`.
fn decimal(digits: &[u8]) -> Option<u32>
    ensures value { result ≡ decimal_few digits.now }
    ensures bound { IfSome result (λ n. n ≤ 230000) }
{
    match digits {
        [a] => Some(digit_value(*a)),
        [a, b] => Some(10 * digit_value(*a) + digit_value(*b)),
        [a, b, c] => Some(100 * digit_value(*a) + 10 * digit_value(*b) + digit_value(*c)),
        [a, b, c, d] => Some(
            1000 * digit_value(*a) + 100 * digit_value(*b) + 10 * digit_value(*c) + digit_value(*d),
        ),
        _ => None,
    }
}

// What stands after the whole metres: nothing, or a point and one or two digits.
fn hundredths(text: &[u8]) -> Option<u32>
    ensures value { result ≡ hundredths_of text.now }
    ensures bound { IfSome result (λ n. n ≤ 100) }
{
    match text {
        [] => Some(0),
        [b'.', a] if a.is_ascii_digit() => Some(10 * digit_value(*a)),
        [b'.', a, b] if a.is_ascii_digit() && b.is_ascii_digit() => {
            Some(10 * digit_value(*a) + digit_value(*b))
        }
        _ => None,
    }
}

// How many digits a text begins with.
fn leading_digits(text: &[u8]) -> usize
    ensures value { result ≡ prefix_len is_digit text.now }
    ensures within { result ≤ length text.now }
{
    text.iter().take_while(|byte| byte.is_ascii_digit()).count()
}

// How long the field is that a text begins with.
fn field_length(text: &[u8]) -> usize
    ensures value { result ≡ prefix_len not_comma text.now }
    ensures within { result ≤ length text.now }
{
    text.iter().take_while(|byte| **byte != b',').count()
}

// A number in metres, in centimetres.
fn metres(text: &[u8]) -> Option<u32>
    ensures value { result ≡ metres_of text.now }
    ensures bound { IfSome result (λ n. n ≤ 23000100) }
{
    let (whole, part) = text.split_at(leading_digits(text));
    Some(100 * decimal(whole)? + hundredths(part)?)
}

// How far the keel is below the transducer: an offset is written with a minus.
fn keel(text: &[u8]) -> Option<u32>
    ensures value { result ≡ keel_of text.now }
    ensures bound { IfSome result (λ n. n ≤ 23000100) }
{
    metres(text.strip_prefix(b"-")?)
}

// A field's text, and the column where it begins.
#[derive(Clone, Copy)]
struct Field<'a> {
    column: usize,
    text: &'a [u8],
}

impl Field<'_> {
    // That the field keeps the clearance from being read.
    fn refusal(&self) -> SentenceError
        ensures { result ≡ SentenceError.NoClearance self.now.column }
    {
        SentenceError::NoClearance {
            column: self.column,
        }
    }

    fn metres(&self) -> Result<u32, SentenceError>
        ensures value { result ≡ ok_or (metres_of self.now.text.now) (SentenceError.NoClearance self.now.column) }
        ensures bound { IfOk result (λ n. n ≤ 23000100) }
    {
        metres(self.text).ok_or(self.refusal())
    }

    fn keel(&self) -> Result<u32, SentenceError>
        ensures value { result ≡ ok_or (keel_of self.now.text.now) (SentenceError.NoClearance self.now.column) }
        ensures bound { IfOk result (λ n. n ≤ 23000100) }
    {
        keel(self.text).ok_or(self.refusal())
    }
}

// What is left of the fields, and the column where it begins.
#[derive(Drop)]
struct Fields<'a> {
    column: usize,
    rest: &'a [u8],
    ghost in_range: { column + length rest.now < 2 ^ 64 },
}

impl<'a> Fields<'a> {
    // Takes the field that a comma begins here, or refuses this column.
    fn next(&mut self) -> Result<Field<'a>, SentenceError>
        ensures taken { MatchResult result (λ field. next_field self.old.rest.now ≡ Some (field.text.now, self.new.rest.now)) (λ error. (next_field self.old.rest.now ≡ None) × (error ≡ SentenceError.NoClearance self.old.column)) }
        ensures columns { IfOk result (λ field. (field.column ≡ self.old.column + 1) × (self.new.column ≡ self.old.column + 1 + length field.text.now)) }
    {
        let here = SentenceError::NoClearance {
            column: self.column,
        };
        let (_, rest) = self.rest.split_first().ok_or(here)?;
        let (text, rest) = rest.split_at(field_length(rest));
        let column = self.column + 1;
        *self = Fields {
            column: column + text.len(),
            rest,
        };
        Ok(Field { column, text })
    }

    // A third field may stand, whatever it holds; a fourth is refused.
    fn end(mut self) -> Result<(), SentenceError>
        ensures { result ≡ unless_extra (extra_of self.entry.column self.entry.rest.now) tt }
    {
        if self.next().is_ok() && !self.rest.is_empty() {
            return Err(SentenceError::NoClearance {
                column: self.column + 1,
            });
        }
        Ok(())
    }
}

// The clearance in centimetres that the fields give.
pub(crate) fn clearance(fields: &[u8]) -> Result<i32, SentenceError>
    ensures { result ≡ clearance_of 7 fields.now }
{
    let mut fields = Fields {
        column: FIELDS_AT,
        rest: fields,
    };
    let deep = fields.next()?.metres()?;
    let keel = fields.next()?.keel()?;
    fields.end()?;
    Ok(deep as i32 - keel as i32)
}
