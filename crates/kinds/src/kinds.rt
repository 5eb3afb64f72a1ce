//! The counter of kinds of sentence.

ghost use Rattle.std.specs.Prelude.{◌≡◌, ◌≤◌, length, OnOk, ◌++◌, string_bytes};
ghost use Rattle.std.proofs.Common.{ap};
ghost use Rattle.sentences.proofs.Decided.{address_decided};
ghost use Rattle.tally.specs.Slots.{over};
ghost use Rattle.keeper.specs.Figures.{newly};
ghost use Rattle.ring.specs.Rings.{window_of};
ghost use Rattle.kinds.specs.Kinds.{as_key, IsAscii, IsRightFor, key_of, kinds_in, kinds_text, most_keys, threshold_of};
ghost use Rattle.kinds.specs.Printed.{kind_text};

use keeper::{Entry, Keeper};
use latest::{Latest, WithTables};
use likeness::AddressKey;
use ring::Ring;
use sentences::{Address, SentenceError, read_address};
use settings::Setting;
use std::alloc::{AllocError, Global};
use std::marker::Model;
use watch::Counter;

const ACCURACY: u32 = 3;

const SPAN: u32 = 6;

// How many addresses the window has, once so many have come.
const MOST_KEYS: usize = 63;

const NO_KEY: AddressKey = AddressKey { bytes: [0; 5] };

/// Which kinds of sentence are many among the latest 63 addresses.
#[derive(Drop)]
pub struct Kinds {
    window: WithTables<AddressKey, Ring>,
}

impl Model for Kinds {
    ghost use Rattle.likeness.specs.declared.address.AddressKey.{AddressKey};
    ghost use Rattle.keeper.specs.Figures.{Figures};
    ghost use Rattle.latest.specs.WithTables.{InTables};
    ghost use Rattle.kinds.specs.Kinds.{IsSet};

    ghost Value = { InTables AddressKey Figures };

    ghost view = { λ kinds. kinds.window };

    ghost invariant = { λ kinds. IsSet kinds.window };
}

// An eighth of so many keys, rounded up, but at least 1.
#[tactic(auto, using(crate::proofs::Settled::rounded_up))]
fn eighth(keys: u32) -> u32
    ensures { result ≡ threshold_of keys }
{
    keys.div_ceil(8).max(1)
}

fn empty_window() -> Latest<Ring>
    ensures { result ≡ record { keeper = newly 3 6; goal = most_keys } }
{
    let setting = Setting::new(ACCURACY, SPAN).unwrap();
    let ring = <Ring as Keeper<AddressKey>>::fresh(setting);
    Latest::new(ring, MOST_KEYS as u32).unwrap()
}

impl Kinds {
    // Lists the kinds over the front of `list`, which has a place for each key of the window, and says how many they are.
    fn list(&self, list: &mut [Entry<AddressKey>; MOST_KEYS]) -> usize
        ensures written { list.new ≡ over (kinds_in self.now.window.keeper.size (window_of self.now.window.keeper self.now.rows)) list.old }
        ensures named { result ≡ length (kinds_in self.now.window.keeper.size (window_of self.now.window.keeper self.now.rows)) }
        ensures fits { result ≤ most_keys }
    {
        let threshold = eighth(self.window.size());
        self.window.list(threshold, list).unwrap()
    }
}

// Appends what is printed of an entry.
fn print_kind(entry: &Entry<AddressKey>, out: &mut String) -> Result<(), AllocError>
    ensures { IsAscii entry.now.key → OnOk result (string_bytes out.new ≡ string_bytes out.old ++ kind_text entry.now) }
{
    let [_, _, first, second, third] = entry.key.bytes;
    let (first, second, third) = (char::from(first), char::from(second), char::from(third));
    writeln!(
        out,
        "kind {first}{second}{third} {} {}",
        entry.floor, entry.ceiling
    )
}

impl Counter for Kinds {
    type Value = AddressKey;

    ghost reading = { key_of };

    ghost came = { λ kinds. kinds.window.keeper.puts };

    ghost holds = { IsRightFor };

    ghost ending = { kinds_text };

    ghost decided = { λ text. ap as_key (address_decided text) };

    fn new(heap: Global) -> Result<Kinds, AllocError> {
        Ok(Kinds {
            window: WithTables::new(empty_window(), NO_KEY, heap)?,
        })
    }

    fn read(text: &[u8]) -> Result<AddressKey, SentenceError> {
        let Address { bytes } = read_address(text)?;
        Ok(AddressKey { bytes })
    }

    // 2^30 are more than can come, so no key is refused.
    fn take(&mut self, key: AddressKey) {
        let _ = self.window.take(key);
    }

    fn print_end(&self, out: &mut String) -> Result<(), AllocError> {
        let mut list = [Entry {
            key: NO_KEY,
            floor: 0,
            ceiling: 0,
        }; MOST_KEYS];
        let named = self.list(&mut list);
        for entry in &list[..named] {
            print_kind(entry, out)?;
        }
        Ok(())
    }
}
