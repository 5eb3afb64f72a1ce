//! What a window counter is made from.

ghost use Rattle.std.specs.Prelude.{◌≡◌, ◌+◌, ◌≤◌};

use crate::refusal::SettingRefusal;
use std::marker::Model;

const LEAST_ACCURACY: u32 = 1;

const MOST_ACCURACY: u32 = 6;

const LEAST_MARGIN: u32 = 3;

const MOST_SPAN: u32 = 20;

/// How exact a window counter is, and how long a window it can hold.
///
/// At accuracy a the two ends of a count lie less than 1 / 2^a of the window's size apart (in an empty window, both are 0); at
/// span K the window holds up to 2^K keys. Whatever setting there is has both in range, so no later call looks again.
#[derive(Clone, Copy, PartialEq, Eq, Debug)]
pub struct Setting {
    accuracy: u32,
    span: u32,
}

impl Model for Setting {
    ghost use Rattle.settings.specs.Chosen.{Chosen, IsInRange};

    ghost Value = { Chosen };

    ghost view = { λ s. record { accuracy = s.accuracy; span = s.span } };

    ghost invariant = { λ s. IsInRange s.accuracy s.span };

    ghost inverse = { λ c. record { accuracy = c.accuracy; span = c.span } };
}

impl Setting {
    ghost use Rattle.settings.specs.Refusals.{Made};

    /// A setting of accuracy 1 to 6 and span accuracy + 3 to 20; the accuracy is looked at first.
    pub fn new(accuracy: u32, span: u32) -> Result<Setting, SettingRefusal>
        ensures { Made accuracy span result }
    {
        if !(LEAST_ACCURACY..=MOST_ACCURACY).contains(&accuracy) {
            return Err(SettingRefusal::Accuracy);
        }
        if !(accuracy + LEAST_MARGIN..=MOST_SPAN).contains(&span) {
            return Err(SettingRefusal::Span);
        }
        Ok(Setting { accuracy, span })
    }

    /// The accuracy, 1 to 6.
    pub fn accuracy(&self) -> u32
        ensures value { result ≡ self.now.accuracy }
        ensures range { (1 ≤ result) × (result ≤ 6) }
    {
        self.accuracy
    }

    /// The span, accuracy + 3 to 20.
    pub fn span(&self) -> u32
        ensures value { result ≡ self.now.span }
        ensures range { (self.now.accuracy + 3 ≤ result) × (result ≤ 20) }
    {
        self.span
    }
}
