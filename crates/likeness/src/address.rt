//! Keys for kinds of sentence.

ghost use Rattle.std.specs.Prelude.{◌≡◌};
ghost use Rattle.likeness.specs.Agree.{kind_of, same_kind};
ghost use Rattle.likeness.specs.Laws;
ghost use Rattle.likeness.specs.Laws.{address_part, address_decides};

use crate::kind::Likeness;

// Not the reader's `Address`, for which every byte counts: of a key only the kind does, and this crate does not know the
// reader.
/// The address of a sentence as it is counted: two bytes for who speaks, and three for the kind of sentence.
#[derive(Clone, Copy, Debug)]
pub struct AddressKey {
    pub bytes: [u8; 5],
}

impl AddressKey {
    /// The last three bytes: the kind of sentence.
    pub fn kind(&self) -> &[u8]
        ensures { result.now ≡ kind_of self.now.bytes }
    {
        &self.bytes[2..]
    }
}

/// Address keys count as one when they name the same kind of sentence, whoever speaks.
impl Likeness for AddressKey {
    ghost alike = { λ x y. same_kind x.bytes y.bytes };

    ghost reflexive = { Laws.reflexive address_part _ address_decides };

    ghost symmetric = { Laws.symmetric address_part _ address_decides };

    ghost transitive = { Laws.transitive address_part _ address_decides };

    fn is_alike(&self, other: &AddressKey) -> bool
        ensures { result ≡ same_kind self.now.bytes other.now.bytes }
    {
        self.kind() == other.kind()
    }
}
