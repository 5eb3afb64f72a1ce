//! Keys as five bytes.

use bands::Band;
use likeness::{AddressKey, Likeness, SoundingKey};
use tally::Row;

/// A kind of key that five bytes spell.
pub(crate) trait Coded: Likeness {
    // The key that five bytes of 0 spell.
    fn blank() -> Self;

    // The key that the bytes spell, if there is one.
    fn spelled(bytes: [u8; 5]) -> Option<Self>;

    fn spelling(&self) -> [u8; 5];

    // The key of a number. Keys of other numbers are unlike it, as far as there are so many.
    fn numbered(number: u32) -> Self;

    // The rows, if these are rows of soundings.
    fn soundings(rows: &[Row<Self>]) -> Option<&[Row<SoundingKey>]>;
}

impl Coded for SoundingKey {
    fn blank() -> SoundingKey {
        SoundingKey::numbered(0)
    }

    fn spelled(bytes: [u8; 5]) -> Option<SoundingKey> {
        let [first, second, band, _, _] = bytes;
        Some(SoundingKey {
            sounder: [first, second],
            band: Band::new(band)?,
        })
    }

    fn spelling(&self) -> [u8; 5] {
        let [first, second] = self.sounder;
        [first, second, self.band.value(), 0, 0]
    }

    fn numbered(number: u32) -> SoundingKey {
        let [first, second, ..] = (number / 7).to_le_bytes();
        SoundingKey {
            sounder: [first, second],
            band: Band::new((number % 7) as u8).unwrap(),
        }
    }

    fn soundings(rows: &[Row<SoundingKey>]) -> Option<&[Row<SoundingKey>]> {
        Some(rows)
    }
}

impl Coded for AddressKey {
    fn blank() -> AddressKey {
        AddressKey { bytes: [0; 5] }
    }

    fn spelled(bytes: [u8; 5]) -> Option<AddressKey> {
        Some(AddressKey { bytes })
    }

    fn spelling(&self) -> [u8; 5] {
        self.bytes
    }

    fn numbered(number: u32) -> AddressKey {
        let [first, second, third, _] = number.to_le_bytes();
        AddressKey {
            bytes: [b'S', b'D', first, second, third],
        }
    }

    fn soundings(_rows: &[Row<AddressKey>]) -> Option<&[Row<SoundingKey>]> {
        None
    }
}
