//! The counter of soundings.

ghost use Rattle.std.specs.Prelude.{◌≡◌, List, [], ◌++◌, length, OnOk, string_bytes, true};
ghost use Rattle.std.proofs.Common.{ap};
ghost use Rattle.sentences.proofs.Decided.{reading_decided};
ghost use Rattle.likeness.specs.Agree.{same_sounding};
ghost use Rattle.likeness.specs.declared.sounding.SoundingKey.{SoundingKey};
ghost use Rattle.tally.specs.declared.rows.Head.{Head};
ghost use Rattle.tally.specs.declared.rows.Row.{Row};
ghost use Rattle.keeper.specs.Figures.{newly};
ghost use Rattle.ladder.specs.Truth.{HoldsWindow};
ghost use Rattle.verdicts.specs.Refusals.{is_class};
ghost use Rattle.latest.specs.Latest.{HoldsLatest, latest};
ghost use Rattle.soundings.specs.Printed.{class_text, readings_text};
ghost use Rattle.soundings.specs.Soundings.{as_key, classes_text, IsRightFor, JudgesRight, judgement_on, key_from, key_of, most_soundings, soundings_text};

use bands::band_of;
use keeper::Keeper;
use ladder::Ladder;
use latest::{Latest, WithTables};
use likeness::SoundingKey;
use sentences::{Reading, SentenceError, read_depth};
use settings::Setting;
use std::alloc::{AllocError, Global};
use std::marker::Model;
use verdicts::{FIRST_CLASS, Judgement, LAST_CLASS};
use watch::Counter;

const ACCURACY: u32 = 1;

const SPAN: u32 = 9;

// How many soundings the window has, once so many have come.
const MOST_SOUNDINGS: u32 = 256;

// The sounder at the berth.
const BERTH_SOUNDER: [u8; 2] = *b"SD";

/// The latest 256 soundings, and for which classes of ferry the berth has water by these.
#[derive(Drop)]
pub struct Soundings {
    window: WithTables<SoundingKey, Ladder>,
}

impl Model for Soundings {
    ghost use Rattle.likeness.specs.declared.sounding.SoundingKey.{SoundingKey};
    ghost use Rattle.keeper.specs.Figures.{Figures};
    ghost use Rattle.latest.specs.WithTables.{InTables};
    ghost use Rattle.soundings.specs.Soundings.{IsSet};

    ghost Value = { InTables SoundingKey Figures };

    ghost view = { λ soundings. soundings.window };

    ghost invariant = { λ soundings. IsSet soundings.window };
}

// A reading as it is counted.
fn key_from(reading: Reading) -> SoundingKey
    ensures { result ≡ key_from reading }
{
    let Reading { sounder, clearance } = reading;
    SoundingKey {
        sounder,
        band: band_of(clearance),
    }
}

fn empty_window() -> Latest<Ladder>
    ensures value { result ≡ record { keeper = newly 1 9; goal = most_soundings } }
    ensures right { (rows : List (Row SoundingKey)) (heads : List Head) → HoldsLatest (λ s. s) (HoldsWindow same_sounding) result rows heads [] [] }
{
    let setting = Setting::new(ACCURACY, SPAN).unwrap();
    let ladder = <Ladder as Keeper<SoundingKey>>::fresh(setting);
    Latest::new(ladder, MOST_SOUNDINGS).unwrap()
}

impl Soundings {
    // What the window says of a class.
    fn judgement(&self, class: u8) -> Judgement
        requires there { is_class class ≡ true }
        ensures { (soundings : List SoundingKey) → IsRightFor self.now soundings → result ≡ judgement_on soundings class }
    {
        self.window.verdict(BERTH_SOUNDER, class).unwrap()
    }

    // Appends what is printed of all classes.
    fn print_classes(&self, out: &mut String) -> Result<(), AllocError>
        ensures { (soundings : List SoundingKey) → IsRightFor self.now soundings → OnOk result (string_bytes out.new ≡ string_bytes out.old ++ classes_text soundings) }
    {
        for class in FIRST_CLASS..=LAST_CLASS {
            print_class(class, self.judgement(class), out)?;
        }
        Ok(())
    }
}

// Appends how many soundings the window holds.
fn print_size(size: u32, out: &mut String) -> Result<(), AllocError>
    ensures { OnOk result (string_bytes out.new ≡ string_bytes out.old ++ readings_text size) }
{
    writeln!(out, "readings {size}")
}

// Appends what is printed of a class.
fn print_class(class: u8, judgement: Judgement, out: &mut String) -> Result<(), AllocError>
    ensures { OnOk result (string_bytes out.new ≡ string_bytes out.old ++ class_text class judgement) }
{
    writeln!(out, "class {class} {judgement}")
}

impl Counter for Soundings {
    type Value = SoundingKey;

    ghost reading = { key_of };

    ghost came = { λ soundings. soundings.window.keeper.puts };

    ghost holds = { IsRightFor };

    ghost ending = { soundings_text };

    ghost decided = { λ text. ap as_key (reading_decided text) };

    fn new(heap: Global) -> Result<Soundings, AllocError> {
        let blank = SoundingKey {
            sounder: BERTH_SOUNDER,
            band: band_of(0),
        };
        Ok(Soundings {
            window: WithTables::new(empty_window(), blank, heap)?,
        })
    }

    fn read(text: &[u8]) -> Result<SoundingKey, SentenceError> {
        let reading = read_depth(text)?;
        Ok(key_from(reading))
    }

    // 2^30 are more than can come, so no sounding is refused.
    fn take(&mut self, sounding: SoundingKey) {
        let _ = self.window.take(sounding);
    }

    fn print_end(&self, out: &mut String) -> Result<(), AllocError>
        ensures printed { (soundings : List SoundingKey) → IsRightFor self.now soundings → OnOk result (string_bytes out.new ≡ string_bytes out.old ++ soundings_text soundings) }
        ensures right { (soundings : List SoundingKey) → IsRightFor self.now soundings → JudgesRight soundings }
    {
        print_size(self.window.size(), out)?;
        self.print_classes(out)
    }
}
