//! The entries of a list, from whatever has keys in an order and a bracket for each.

ghost use Rattle.std.specs.Prelude.{◌≡◌, ℕ, ◌<◌, ◌^◌, ◌++◌, List, length, map, min, slice_set, take, true, false, is_ok};
ghost use Rattle.keeper.specs.Listing.{all_keys, among, IsFirstFrom, IsPiece, keys_in, listed, named_after, written_over};
ghost use Rattle.keeper.specs.Refusals.{room_answer};
ghost use Rattle.tally.specs.declared.rows.Row.{Row};
ghost use Rattle.tally.specs.Slots.{over};

use crate::entry::Entry;
use crate::refusal::Refusal;
use likeness::Likeness;
use tally::Row;

/// What a list is made from: rows in pieces, whose keys are in order, and a bracket for each key.
pub trait Source<K: Likeness> {
    // The rows, piece after piece.
    ghost pieces: { Self → List (List (Row K)) };

    // The bracket of a key.
    ghost bracket: { Self → K → ℕ × ℕ };

    /// The pieces, as they lie in a table.
    fn pieces(&self) -> &[&[Row<K>]]
        ensures rows { map (λ rows. rows.now) result.now ≡ pieces self.now }
        ensures few { length (all_keys (pieces self.now)) < 2 ^ 64 };

    /// Whether a key is alike to one in the first pieces, or to one in these rows.
    fn is_known_before(&self, number: usize, before: &[Row<K>], key: &K) -> bool
        ensures { result ≡ among K.alike (all_keys (take number (pieces self.now)) ++ keys_in before.now) key.now };

    /// The bracket of a key to which no key of the first pieces is alike, and none before these rows in the piece of that number. So it
    /// is enough to look on from there.
    fn bracket_from(&self, number: usize, rows: &[Row<K>], key: &K) -> (u32, u32)
        ensures { IsFirstFrom K.alike (pieces self.now) number rows.now key.now → result ≡ bracket self.now key.now };
}

/// Whether one of the rows has a key that is alike to this one.
pub fn rows_hold<K: Likeness>(rows: &[Row<K>], key: &K) -> bool
    ensures { result ≡ among K.alike (keys_in rows.now) key.now }
{
    let key = *key;
    rows.iter().any(|row| row.key.is_alike(&key))
}

/// Whether a row of the first pieces has a key that is alike to this one.
pub fn pieces_hold<K: Likeness>(pieces: &[&[Row<K>]], number: usize, key: &K) -> bool
    ensures { result ≡ among K.alike (all_keys (take number (map (λ rows. rows.now) pieces.now))) key.now }
{
    pieces.iter().take(number).any(|rows| rows_hold(rows, key))
}

// The entry for a key of the piece of this number, which lies between `before` and `rows` there, if that is its first place and its
// ceiling reaches the threshold.
fn entry_of<K: Likeness, S: Source<K>>(
    source: &S,
    number: usize,
    before: &[Row<K>],
    rows: &[Row<K>],
    key: &K,
    threshold: u32,
) -> Option<Entry<K>>
    requires { IsPiece (S.pieces source.now) number (before.now ++ rows.now) }
    ensures { result ≡ named_after K.alike (S.bracket source.now) threshold (all_keys (take number (S.pieces source.now)) ++ keys_in before.now) key.now }
{
    if source.is_known_before(number, before, key) {
        return None;
    }
    let (floor, ceiling) = source.bracket_from(number, rows, key);
    (threshold <= ceiling).then_some(Entry {
        key: *key,
        floor,
        ceiling,
    })
}

// Writes an entry to its place in a list, if the list is so long.
fn write_at<K: Copy>(list: &mut [Entry<K>], place: usize, entry: Entry<K>)
    ensures { list.new ≡ slice_set list.old place entry }
{
    if place < list.len() {
        list[place] = entry;
    }
}

// Counts the entries up to so many, and writes over the front of the list those of them that it has places for.
fn write_entries<K: Likeness, S: Source<K>>(
    source: &S,
    threshold: u32,
    most: usize,
    list: &mut [Entry<K>],
) -> usize
    ensures few { length (listed K.alike (S.bracket source.now) threshold (all_keys (S.pieces source.now))) < 2 ^ 64 }
    ensures entries { (result ≡ min most (length (listed K.alike (S.bracket source.now) threshold (all_keys (S.pieces source.now)))))
        × (list.new ≡ written_over (take most (listed K.alike (S.bracket source.now) threshold (all_keys (S.pieces source.now)))) list.old) }
{
    let mut named = 0;
    let pieces = source.pieces();
    for number in 0..pieces.len() {
        let rows = pieces[number];
        for place in 0..rows.len() {
            if named == most {
                return named;
            }
            let (before, behind) = (&rows[..place], &rows[place..]);
            let entry = entry_of(source, number, before, behind, &rows[place].key, threshold);
            if let Some(entry) = entry {
                write_at(list, named, entry);
                named += 1;
            }
        }
    }
    named
}

/// Writes the entries over the front of the list, and answers how many: one for each key that stands first among those that are
/// alike, if its ceiling reaches the threshold. Refused where the list is too short for them.
// The entries are counted before any is written, so that a list that is too short stays as it was. They are written up to the last one, and
// no row behind it is looked at again.
pub fn list_from<K: Likeness, S: Source<K>>(
    source: &S,
    threshold: u32,
    list: &mut [Entry<K>],
) -> Result<usize, Refusal>
    ensures answer { result ≡ room_answer (length list.old)
        (length (listed K.alike (S.bracket source.now) threshold (all_keys (S.pieces source.now)))) }
    ensures written { is_ok result ≡ true → list.new ≡ over (listed K.alike (S.bracket source.now) threshold (all_keys (S.pieces source.now))) list.old }
    ensures kept { is_ok result ≡ false → list.new ≡ list.old }
{
    let mut nowhere = [];
    let named = write_entries(source, threshold, usize::MAX, &mut nowhere);
    if list.len() < named {
        return Err(Refusal::ShortList);
    }
    Ok(write_entries(source, threshold, named, list))
}
