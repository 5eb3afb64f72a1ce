//! Whether the entries of a list are right.

ghost use Rattle.std.specs.Prelude.{◌≡◌, ◌↔◌, IsTrue, false, All, map};
ghost use Rattle.keeper.specs.Listing.{among, Apart};
ghost use Rattle.keeper.specs.Rules.{Named};
ghost use Rattle.crosscheck.specs.Right.{IsRightEntry};

use crate::counted::{Counted, is_near};
use keeper::Entry;
use likeness::Likeness;
use settings::Setting;

// Whether no two of them have keys that are alike.
pub(crate) fn are_apart<K: Likeness>(entries: &[Entry<K>]) -> bool
    ensures { IsTrue result ↔ Apart K.alike (map (λ e. e.key) entries.now) }
{
    let Some((entry, others)) = entries.split_first() else {
        return true;
    };
    is_apart_from(others, &entry.key) && are_apart(others)
}

// Whether none of them has a key that is alike to this one.
fn is_apart_from<K: Likeness>(entries: &[Entry<K>], key: &K) -> bool
    ensures { IsTrue result ↔ All (λ e. K.alike key.now e.key ≡ false) entries.now }
{
    entries.iter().all(|entry| !key.is_alike(&entry.key))
}

// Whether one of them has a key that is alike to this one.
fn is_named<K: Likeness>(entries: &[Entry<K>], key: &K) -> bool
    ensures { result ≡ among K.alike (map (λ e. e.key) entries.now) key.now }
{
    entries
        .iter()
        .map(|entry| entry.key)
        .any(|other| other.is_alike(key))
}

// Whether they name each key of a list that is exact.
pub(crate) fn are_named<K: Likeness>(entries: &[Entry<K>], exact: &[Entry<K>]) -> bool
    ensures { IsTrue result ↔ All (λ e. Named K.alike entries.now e.key) exact.now }
{
    exact.iter().all(|entry| is_named(entries, &entry.key))
}

// Whether one of them is right, by what both count of its key.
pub(crate) fn is_right_entry<K>(
    setting: Setting,
    threshold: u32,
    counted: &Counted,
    entry: &Entry<K>,
) -> bool
    ensures { IsTrue result ↔ IsRightEntry setting.accuracy threshold counted.now entry.now }
{
    let (count, _) = counted.exact;
    counted.is_right(setting)
        && (entry.floor, entry.ceiling) == counted.bracket
        && 1 <= count
        && is_near(setting, counted.size, count, threshold)
}
