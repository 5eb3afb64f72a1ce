//! Plain counts over a window that is there whole: what every answer is measured against.

ghost use Rattle.std.specs.Prelude.{◌≡◌, ◌≤◌, length, ◌↔◌, IsTrue};
ghost use Rattle.std.specs.List.{list_any};
ghost use Rattle.likeness.specs.Counts.{Stands, true_count, truly_short};

use crate::kind::Likeness;
use crate::sounding::SoundingKey;

/// The true count of `key`: how often the window holds a key that is alike to it.
// Each key adds 0 or 1, without a branch, so that several can be taken at once: a chain with `filter` takes half as long again
// or twice as long.
pub fn true_count<K: Likeness>(window: &[K], key: &K) -> usize
    ensures value { result ≡ true_count K.alike window.now key.now }
    ensures bound { result ≤ length window.now }
{
    let mut total = 0;
    for other in window {
        total += other.is_alike(key) as usize;
    }
    total
}

// Whether one of the keys is alike to `key`. A function of its own, since the lemma `stands_any` needs its answer as a fact.
fn any_alike<K: Likeness>(window: &[K], key: &K) -> bool
    ensures { result ≡ list_any (λ x. K.alike x key.now) window.now }
{
    window.iter().any(|other| other.is_alike(key))
}

/// Whether some key of the window is alike to `key`.
pub fn stands_in<K: Likeness>(window: &[K], key: &K) -> bool
    ensures { IsTrue result ↔ Stands K.alike window.now key.now }
{
    any_alike(window, key)
}

/// The sounder's readings in the window that were too shallow for `class`.
pub fn truly_short(window: &[SoundingKey], sounder: [u8; 2], class: u8) -> usize
    ensures value { result ≡ truly_short window.now sounder class }
    ensures bound { result ≤ length window.now }
{
    window
        .iter()
        .filter(|key| key.is_of(sounder) && key.band.value() < class)
        .count()
}
