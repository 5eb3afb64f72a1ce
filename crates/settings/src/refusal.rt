//! Why there is no setting of two numbers.

ghost use Rattle.std.specs.Prelude.{◌≡◌, Some};
ghost use Rattle.settings.specs.Refusals.{number_of, refusal_text};

use std::error::Error;
use std::fmt;

/// Why a setting is refused, by number.
#[derive(Clone, Copy, PartialEq, Eq, Debug)]
pub enum SettingRefusal {
    /// The accuracy is not from 1 to 6.
    Accuracy = 1,
    /// The span is not from the accuracy + 3 to 20.
    Span = 2,
}

impl SettingRefusal {
    /// The refusal's number.
    pub fn number(&self) -> u8
        ensures { result ≡ number_of self.now }
    {
        *self as u8
    }
}

impl fmt::Display for SettingRefusal {
    ghost output = { λ refusal. Some (refusal_text refusal) };

    fn fmt<W: fmt::Write>(&self, f: &mut fmt::Formatter<W>) -> fmt::Result {
        let number = self.number();
        write!(f, "refused {number}")
    }
}

impl Error for SettingRefusal {}
