//! Why a fixed window refuses a call.

ghost use Rattle.std.specs.Prelude.{◌≡◌, Some};
ghost use Rattle.windows.specs.Refusals.{number_of, refusal_text};
ghost use Rattle.windows.specs.declared.refusal.WindowRefusal.TheVariants.{Keeper};

use keeper::Refusal;
use std::error::Error;
use std::fmt;

/// Why a call of a fixed window is refused. A refused call changes nothing.
#[derive(Clone, Copy, PartialEq, Eq, Debug)]
pub enum WindowRefusal {
    /// The size is not from 1 to 2^span − 1, or the keeper's window is not empty.
    Unfit,
    /// The window has not its size yet.
    Unfilled,
    /// What a keeper refuses too; a window that has its size refuses a put as a full keeper does.
    Keeper(Refusal),
}

/// What a refused call hands back, and why it was refused.
#[derive(Debug, Drop)]
pub struct Returned<T> {
    pub value: T,
    pub refusal: WindowRefusal,
}

impl WindowRefusal {
    /// The refusal's number.
    // One variant holds a keeper's refusal, so there are no discriminants, and the numbers stand in a match.
    pub fn number(&self) -> u8
        ensures { result ≡ number_of self.now }
    {
        match self {
            WindowRefusal::Unfit => 3,
            WindowRefusal::Unfilled => 9,
            WindowRefusal::Keeper(refusal) => refusal.number(),
        }
    }
}

/// A keeper's refusal is one of the window over it.
impl From<Refusal> for WindowRefusal {
    ghost from_gives = { λ refusal given. given ≡ Keeper refusal };

    fn from(refusal: Refusal) -> WindowRefusal {
        WindowRefusal::Keeper(refusal)
    }
}

impl fmt::Display for WindowRefusal {
    ghost output = { λ refusal. Some (refusal_text refusal) };

    fn fmt<W: fmt::Write>(&self, f: &mut fmt::Formatter<W>) -> fmt::Result {
        let number = self.number();
        write!(f, "refused {number}")
    }
}

impl Error for WindowRefusal {}
