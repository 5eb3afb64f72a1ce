//! Keys, rings and comparisons that the tests share.

mod fixed_windows;
mod on_a_ladder;
mod whole_traces;

use keeper::{Entry, Keeper};
use likeness::{AddressKey, true_count};
use ring::Ring;
use settings::{Setting, SettingRefusal};
use std::process::Abort;
use tally::Row;

// The rows that a ring of span 4 needs.
const ROWS: usize = 16;

fn key(letter: u8) -> AddressKey {
    AddressKey {
        bytes: [b'S', b'D', b'D', b'P', letter],
    }
}

// Rows that were used before.
fn used_rows() -> [Row<AddressKey>; ROWS] {
    [Row {
        key: key(b'A'),
        count: 77,
    }; ROWS]
}

fn used_list() -> [Entry<AddressKey>; 4] {
    [Entry {
        key: key(b'Z'),
        floor: 5,
        ceiling: 6,
    }; 4]
}

// Accuracy 1, and a window of up to 16 keys.
fn fresh() -> Result<Ring, SettingRefusal> {
    let setting = Setting::new(1, 4)?;
    Ok(<Ring as Keeper<AddressKey>>::fresh(setting))
}

fn are_rows(rt: &impl Abort, rows: &[Row<AddressKey>], wanted: &[Row<AddressKey>]) {
    assert_eq!(rt; rows.len(), wanted.len());
    for (row, other) in rows.iter().zip(wanted) {
        assert_eq!(rt; (row.key.bytes, row.count), (other.key.bytes, other.count));
    }
}

// Whether these are the entries of exactly so many keys each.
fn are_entries(rt: &impl Abort, list: &[Entry<AddressKey>], wanted: &[(u8, u32)]) {
    assert_eq!(rt; list.len(), wanted.len());
    for (entry, (letter, count)) in list.iter().zip(wanted) {
        assert_eq!(rt;
            (entry.key.bytes[4], entry.floor, entry.ceiling),
            (*letter, *count, *count)
        );
    }
}

// Whether the list is as it was before.
fn untouched(rt: &impl Abort, list: &[Entry<AddressKey>]) {
    for entry in list {
        assert_eq!(rt;
            (entry.key.bytes, entry.floor, entry.ceiling),
            (*b"SDDPZ", 5, 6)
        );
    }
}

// Whether a bracket is the exact count of a key in a window that is there whole.
fn is_exact(rt: &impl Abort, bracket: (u32, u32), window: &[AddressKey], letter: u8) {
    let count = true_count(window, &key(letter));
    assert_eq!(rt; (bracket.0 as usize, bracket.1 as usize), (count, count));
}
