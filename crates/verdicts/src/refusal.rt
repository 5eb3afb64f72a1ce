//! Why a verdict is refused.

ghost use Rattle.std.specs.Prelude.{◌≡◌, Some};
ghost use Rattle.verdicts.specs.Refusals.{number_of, refusal_text};
ghost use Rattle.verdicts.specs.declared.refusal.VerdictRefusal.TheVariants.{Keeper};

use keeper::Refusal;
use std::error::Error;
use std::fmt;

/// Why there is no verdict. A refused call changes nothing.
#[derive(Clone, Copy, PartialEq, Eq, Debug)]
pub enum VerdictRefusal {
    /// There is no such class: they are numbered from 1 to 6.
    Class,
    /// What a keeper refuses too.
    Keeper(Refusal),
}

impl VerdictRefusal {
    /// The refusal's number.
    // One variant holds a keeper's refusal, so there are no discriminants, and the number stands in a match.
    pub fn number(&self) -> u8
        ensures { result ≡ number_of self.now }
    {
        match self {
            VerdictRefusal::Class => 11,
            VerdictRefusal::Keeper(refusal) => refusal.number(),
        }
    }
}

/// A keeper's refusal is one of the verdict that asked it.
impl From<Refusal> for VerdictRefusal {
    ghost from_gives = { λ refusal given. given ≡ Keeper refusal };

    fn from(refusal: Refusal) -> VerdictRefusal {
        VerdictRefusal::Keeper(refusal)
    }
}

impl fmt::Display for VerdictRefusal {
    ghost output = { λ refusal. Some (refusal_text refusal) };

    fn fmt<W: fmt::Write>(&self, f: &mut fmt::Formatter<W>) -> fmt::Result {
        let number = self.number();
        write!(f, "refused {number}")
    }
}

impl Error for VerdictRefusal {}
