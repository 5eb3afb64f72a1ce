//! From bytes to an address or a reading.

ghost use Rattle.std.specs.Prelude.{◌≡◌, ℕ, take, Ok, Err};
ghost use Rattle.std.specs.Option.{ok_or};
ghost use Rattle.sentences.specs.Format.{Exactly, HasAddress, FirstWrong, DepthSentence};
ghost use Rattle.sentences.specs.Reader.{address_bytes, address_of, depth_at, fields_of, reading_of, sounder_of};

use crate::error::SentenceError;
use crate::fields::clearance;
use crate::shape::ShapedBytes;

/// The five bytes after the `$`: who speaks, in two, and the kind of sentence, in three.
#[derive(Clone, Copy, PartialEq, Eq, Debug)]
pub struct Address {
    pub bytes: [u8; 5],
}

/// What a depth sentence says: the two bytes that name the sounder, and the clearance under the keel
/// in centimetres, below 0 where the keel would touch.
#[derive(Clone, Copy, PartialEq, Eq, Debug)]
pub struct Reading {
    pub sounder: [u8; 2],
    pub clearance: i32,
}

// The sounder that an address names, where it is a depth sentence's.
fn depth_sounder(address: [u8; 5]) -> Result<[u8; 2], SentenceError>
    ensures { result ≡ ok_or (sounder_of address) SentenceError.NotDepth }
{
    match address {
        [first, second, b'D', b'P', b'T'] => Ok([first, second]),
        _ => Err(SentenceError::NotDepth),
    }
}

// What `read_address` answers.
fn parse_address(bytes: &[u8]) -> Result<Address, SentenceError>
    ensures { result ≡ address_of bytes.now }
{
    let sentence = ShapedBytes::read(bytes)?;
    sentence.check_sum()?;
    Ok(Address {
        bytes: sentence.address(),
    })
}

// The reading that a sentence gives once its shape and sum are right.
fn depth_reading(sentence: &ShapedBytes) -> Result<Reading, SentenceError>
    ensures { result ≡ depth_at (sounder_of (address_bytes sentence.now)) (fields_of sentence.now) }
{
    let sounder = depth_sounder(sentence.address())?;
    let clearance = clearance(sentence.fields())?;
    Ok(Reading { sounder, clearance })
}

// What `read_depth` answers.
fn parse_depth(bytes: &[u8]) -> Result<Reading, SentenceError>
    ensures { result ≡ reading_of bytes.now }
{
    let sentence = ShapedBytes::read(bytes)?;
    sentence.check_sum()?;
    depth_reading(&sentence)
}

/// The address of a sentence of right shape and checksum.
///
/// The bytes come without their line end. Nothing past the 81st of them is looked at.
pub fn read_address(bytes: &[u8]) -> Result<Address, SentenceError>
    ensures value { result ≡ address_of bytes.now }
    ensures exactly { (address : Address) → Exactly (result ≡ Ok address) (HasAddress bytes.now address.bytes) }
    ensures wrong { (column : ℕ) → Exactly (result ≡ Err (SentenceError.Shape column)) (FirstWrong bytes.now column) }
    ensures decided { address_of (take 81 bytes.now) ≡ address_of bytes.now }
{
    parse_address(bytes)
}

/// The reading of a depth sentence.
///
/// The bytes come without their line end. Nothing past the 81st of them is looked at.
pub fn read_depth(bytes: &[u8]) -> Result<Reading, SentenceError>
    ensures value { result ≡ reading_of bytes.now }
    ensures exactly { (reading : Reading) → Exactly (result ≡ Ok reading) (DepthSentence bytes.now reading.sounder reading.clearance) }
    ensures wrong { (column : ℕ) → Exactly (result ≡ Err (SentenceError.Shape column)) (FirstWrong bytes.now column) }
    ensures decided { reading_of (take 81 bytes.now) ≡ reading_of bytes.now }
{
    parse_depth(bytes)
}
