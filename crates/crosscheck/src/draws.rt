//! Keys and numbers drawn at random, the same in each run.

use crate::mix::{ABSENT, Mix};
use likeness::AddressKey;
use rand::RngExt;
use rand_pcg::Pcg32;

const SEED: u64 = 42;

const STREAM: u64 = 54;

// One in so many keys that are asked for never came.
const ABSENT_AMONG: u32 = 32;

// Who speaks. Alike keys come from each of them.
const TALKERS: [[u8; 2]; 4] = [*b"SD", *b"II", *b"VW", *b"7Z"];

#[derive(Drop)]
pub(crate) struct Draws {
    mix: Mix,
    numbers: Pcg32,
}

impl Draws {
    pub(crate) fn of(mix: Mix) -> Draws {
        Draws {
            mix,
            numbers: Pcg32::new(SEED, STREAM),
        }
    }

    // A number below another one; 0 if there is none.
    pub(crate) fn below(&mut self, end: u32) -> u32 {
        if end == 0 {
            return 0;
        }
        self.numbers.random_range(0..end)
    }

    // A key that comes.
    pub(crate) fn key(&mut self) -> AddressKey {
        let number = self.mix.draw(&mut self.numbers);
        self.key_of(number)
    }

    // A key to ask for.
    pub(crate) fn key_to_ask(&mut self) -> AddressKey {
        if self.below(ABSENT_AMONG) == 0 {
            self.key_of(ABSENT)
        } else {
            self.key()
        }
    }

    // The key of a number, from any talker: the number in letters.
    fn key_of(&mut self, number: u32) -> AddressKey {
        let [first, second] = TALKERS[self.numbers.random_range(0..TALKERS.len())];
        AddressKey {
            bytes: [
                first,
                second,
                letter(number / (26 * 26)),
                letter(number / 26),
                letter(number),
            ],
        }
    }
}

// The capital letter for a number's last digit of 26.
fn letter(number: u32) -> u8 {
    b'A' + (number % 26) as u8
}
