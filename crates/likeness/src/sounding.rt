//! Keys for readings of the depth.

ghost use Rattle.std.specs.Prelude.{◌≡◌, ◌+◌, ◌*◌, ◌<◌, slice_index};
ghost use Rattle.likeness.specs.Agree.{same_sounder, same_sounding};
ghost use Rattle.likeness.specs.Laws;
ghost use Rattle.likeness.specs.Laws.{sounding_part, sounding_decides};

use crate::kind::Likeness;
use bands::Band;

/// A reading as it is counted: who sounded, and the band of the clearance.
#[derive(Clone, Copy, Debug)]
pub struct SoundingKey {
    pub sounder: [u8; 2],
    pub band: Band,
}

impl SoundingKey {
    /// Whether it is a reading of this sounder.
    pub fn is_of(&self, sounder: [u8; 2]) -> bool
        ensures { result ≡ same_sounder self.now.sounder sounder }
    {
        number(self.sounder) == number(sounder)
    }
}

// A sounder's two bytes as one number, so that two sounders are compared at once.
fn number(sounder: [u8; 2]) -> u16
    ensures value { result ≡ slice_index sounder 0 + 256 * slice_index sounder 1 }
    ensures low { slice_index sounder 0 < 256 }
{
    let [low, high] = sounder;
    u16::from(low) + 256 * u16::from(high)
}

/// Sounding keys count as one when they are readings of one sounder in one band.
impl Likeness for SoundingKey {
    ghost alike = { same_sounding };

    ghost reflexive = { Laws.reflexive sounding_part _ sounding_decides };

    ghost symmetric = { Laws.symmetric sounding_part _ sounding_decides };

    ghost transitive = { Laws.transitive sounding_part _ sounding_decides };

    // Without a branch, since a loop that counts alike keys can then take several at once.
    fn is_alike(&self, other: &SoundingKey) -> bool {
        self.is_of(other.sounder) & (self.band == other.band)
    }
}
