//! Why a call is refused.

ghost use Rattle.std.specs.Prelude.{◌≡◌, Some};
ghost use Rattle.keeper.specs.Refusals.{number_of, refusal_text};

use std::error::Error;
use std::fmt;

/// Why a keeper refuses a call, by number. A refused call changes nothing.
#[derive(Clone, Copy, PartialEq, Eq, Debug)]
pub enum Refusal {
    /// The row table or the head table is shorter than the keeper needs.
    ShortTable = 4,
    /// The list has fewer places than there are entries to write.
    ShortList = 5,
    /// 2^30 puts have been accepted: no more are.
    Spent = 6,
    /// The window holds as many keys as it can.
    Full = 7,
    /// The window holds no key that could be dropped.
    Vacant = 8,
    /// The threshold is 0, or too low for what the accuracy can tell of a window of this size.
    Threshold = 10,
}

impl Refusal {
    /// The refusal's number.
    pub fn number(&self) -> u8
        ensures { result ≡ number_of self.now }
    {
        *self as u8
    }
}

impl fmt::Display for Refusal {
    ghost output = { λ refusal. Some (refusal_text refusal) };

    fn fmt<W: fmt::Write>(&self, f: &mut fmt::Formatter<W>) -> fmt::Result {
        let number = self.number();
        write!(f, "refused {number}")
    }
}

impl Error for Refusal {}
