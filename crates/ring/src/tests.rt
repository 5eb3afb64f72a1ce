use super::*;
use keeper::{Entry, Keeper, Lengths, Record, Refusal};
use likeness::{AddressKey, true_count};
use settings::{Setting, SettingRefusal};
use std::process::Abort;
use std::test::Fail;
use tally::{Head, Row};

fn key(letter: u8) -> AddressKey {
    AddressKey {
        bytes: [b'S', b'D', b'D', b'P', letter],
    }
}

fn row(letter: u8, count: u32) -> Row<AddressKey> {
    Row {
        key: key(letter),
        count,
    }
}

// One row more than is needed; all were used before.
fn used_rows() -> [Row<AddressKey>; 65] {
    [row(b'A', 77); 65]
}

fn used_list() -> [Entry<AddressKey>; 5] {
    [Entry {
        key: key(b'Z'),
        floor: 5,
        ceiling: 6,
    }; 5]
}

// No ring can be cloned: one that could be would get this trait twice, and the tests would not compile.
trait IsNotCloned {}

impl<T: Clone> IsNotCloned for T {}

impl IsNotCloned for Ring {}

// Accuracy 3, and a window of up to 64 keys.
fn fresh() -> Result<Ring, SettingRefusal> {
    let setting = Setting::new(3, 6)?;
    Ok(<Ring as Keeper<AddressKey>>::fresh(setting))
}

fn put<P: Keeper<AddressKey>>(
    keeper: &mut P,
    rows: &mut [Row<AddressKey>],
    letter: u8,
) -> Result<(), Refusal> {
    keeper.put(rows, &mut [], key(letter))
}

fn drop_oldest<P: Keeper<AddressKey>>(keeper: &mut P) -> Result<(), Refusal> {
    keeper.drop_oldest()
}

// A ring whose window has gone on to the last rows of the table, and is empty.
fn moved_on(rows: &mut [Row<AddressKey>]) -> Result<Ring, Fail> {
    let mut ring = fresh()?;
    for _ in 0..61 {
        put(&mut ring, rows, b'X')?;
        drop_oldest(&mut ring)?;
    }
    Ok(ring)
}

fn are_rows(rt: &impl Abort, rows: &[Row<AddressKey>], wanted: &[Row<AddressKey>]) {
    assert_eq!(rt; rows.len(), wanted.len());
    for (row, other) in rows.iter().zip(wanted) {
        assert_eq!(rt; (row.key.bytes, row.count), (other.key.bytes, other.count));
    }
}

fn are_entries(rt: &impl Abort, list: &[Entry<AddressKey>], wanted: &[([u8; 5], u32)]) {
    assert_eq!(rt; list.len(), wanted.len());
    for (entry, (bytes, count)) in list.iter().zip(wanted) {
        assert_eq!(rt;
            (entry.key.bytes, entry.floor, entry.ceiling),
            (*bytes, *count, *count)
        );
    }
}

fn untouched(rt: &impl Abort, list: &[Entry<AddressKey>]) {
    for entry in list {
        assert_eq!(rt;
            (entry.key.bytes, entry.floor, entry.ceiling),
            (*b"SDDPZ", 5, 6)
        );
    }
}

// Whether the ring counts what is truly in the window.
fn counts_truly(
    rt: &impl Abort,
    ring: &Ring,
    rows: &[Row<AddressKey>],
    window: &[AddressKey],
) -> Result<(), Refusal> {
    for letter in *b"ABCDEFG" {
        let (floor, ceiling) = ring.count(rows, &[], &key(letter))?;
        let count = true_count(window, &key(letter));
        assert_eq!(rt; (floor as usize, ceiling as usize), (count, count));
    }
    Ok(())
}

#[test]
fn an_empty_window(rt: HostRuntime) -> Result<(), Fail> {
    let mut list = used_list();
    let mut ring = fresh()?;
    assert_eq!(rt; ring.setting(), Setting::new(3, 6)?);
    assert_eq!(rt; ring.needs(), Lengths { rows: 64, heads: 0 });
    assert_eq!(rt; (ring.puts(), ring.size()), (0, 0));
    assert_eq!(rt; ring.count(&used_rows(), &[], &key(b'A')), Ok((0, 0)));
    assert_eq!(rt; ring.list(&used_rows(), &[], 1, &mut list), Ok(0));
    untouched(&rt, &list);
    assert_eq!(rt; drop_oldest(&mut ring), Err(Refusal::Vacant));
    assert_eq!(rt; (ring.puts(), ring.size()), (0, 0));
    Ok(())
}

#[test]
fn each_put_has_its_row(rt: HostRuntime) -> Result<(), Fail> {
    let mut rows = [row(b'-', 77); 17];
    let setting = Setting::new(1, 4)?;
    let mut ring = <Ring as Keeper<AddressKey>>::fresh(setting);
    for letter in *b"ABCDEFGHIJKLMNOPQRST" {
        if ring.size() == 16 {
            drop_oldest(&mut ring)?;
        }
        put(&mut ring, &mut rows, letter)?;
    }
    for (row, letter) in rows.iter().zip(b"QRSTEFGHIJKLMNOP") {
        assert_eq!(rt; (row.key.bytes[4], row.count), (*letter, 1));
    }
    are_rows(&rt, &rows[16..], &[row(b'-', 77)]);
    Ok(())
}

// The example of the rules.
#[test]
fn sounders_of_one_kind(rt: HostRuntime) -> Result<(), Fail> {
    let mut rows = [row(b'-', 77); 16];
    let mut list = used_list();
    let mut ring = Ring {
        setting: Setting::new(1, 4)?,
        puts: 14,
        size: 0,
    };
    for bytes in [*b"SDDPT", *b"SDDBT", *b"IIDPT", *b"SDDPT", *b"SDDBT"] {
        ring.put(&mut rows, &mut [], AddressKey { bytes })?;
    }
    assert_eq!(rt; (rows[2].key.bytes, rows[2].count), (*b"SDDBT", 1));
    assert_eq!(rt; (rows[3].key.bytes, rows[3].count), (*b"SDDP-", 77));
    assert_eq!(rt;
        ring.count(&rows, &[], &AddressKey { bytes: *b"VWDPT" }),
        Ok((3, 3))
    );
    assert_eq!(rt; ring.list(&rows, &[], 3, &mut list), Ok(1));
    are_entries(&rt, &list[..1], &[(*b"SDDPT", 3)]);
    assert_eq!(rt;
        ring.list(&rows, &[], 2, &mut list),
        Err(Refusal::Threshold)
    );
    Ok(())
}

#[test]
fn a_window_round_the_rows(rt: HostRuntime) -> Result<(), Fail> {
    let mut rows = used_rows();
    let mut heads = [Head { used: 9, lost: 9 }];
    let mut ring = fresh()?;
    let mut window = Vec::new(rt.alloc());
    for _ in 0..6 {
        for letter in *b"ABACABADABACABAEABACABADABACABAFB" {
            ring.put(&mut rows, &mut heads, key(letter))?;
            window.push(key(letter))?;
            if window.len() > 41 {
                drop_oldest(&mut ring)?;
                window.remove(0);
            }
            counts_truly(&rt, &ring, &rows, &window)?;
        }
    }
    assert_eq!(rt; (ring.puts(), ring.size()), (198, 41));
    assert_eq!(rt; heads, [Head { used: 9, lost: 9 }]);
    are_rows(&rt, &rows[64..], &used_rows()[64..]);
    Ok(())
}

#[test]
fn keys_by_first_place(rt: HostRuntime) -> Result<(), Fail> {
    let mut rows = used_rows();
    let mut list = used_list();
    let mut ring = moved_on(&mut rows)?;
    ring.put(&mut rows, &mut [], AddressKey { bytes: *b"IIDPB" })?;
    for letter in *b"ABCABAD" {
        put(&mut ring, &mut rows, letter)?;
    }
    assert_eq!(rt; ring.list(&rows, &[], 4, &mut list), Ok(0));
    untouched(&rt, &list);
    assert_eq!(rt; ring.list(&rows, &[], 3, &mut list), Ok(2));
    are_entries(&rt, &list[..2], &[(*b"IIDPB", 3), (*b"SDDPA", 3)]);
    untouched(&rt, &list[2..]);
    assert_eq!(rt; ring.list(&rows, &[], 1, &mut list), Ok(4));
    are_entries(&rt, &list[2..4], &[(*b"SDDPC", 1), (*b"SDDPD", 1)]);
    untouched(&rt, &list[4..]);
    drop_oldest(&mut ring)?;
    drop_oldest(&mut ring)?;
    assert_eq!(rt; ring.list(&rows, &[], 1, &mut list), Ok(4));
    are_entries(
        &rt,
        &list[..4],
        &[
            (*b"SDDPB", 2),
            (*b"SDDPC", 1),
            (*b"SDDPA", 2),
            (*b"SDDPD", 1),
        ],
    );
    Ok(())
}

#[test]
fn what_the_rows_held_before(rt: HostRuntime) -> Result<(), Fail> {
    let mut rows = used_rows();
    let mut list = used_list();
    let ring = Ring {
        setting: Setting::new(3, 6)?,
        puts: 66,
        size: 5,
    };
    rows[60] = row(b'C', 1);
    rows[1] = row(b'B', 0);
    rows[2] = row(b'D', 1);
    assert_eq!(rt; ring.count(&rows, &[], &key(b'A')), Ok((4, 4)));
    assert_eq!(rt; ring.count(&rows, &[], &key(b'B')), Ok((1, 1)));
    assert_eq!(rt; ring.count(&rows, &[], &key(b'C')), Ok((0, 0)));
    assert_eq!(rt; ring.count(&rows, &[], &key(b'D')), Ok((0, 0)));
    assert_eq!(rt; ring.list(&rows, &[], 1, &mut list), Ok(2));
    are_entries(&rt, &list[..2], &[(*b"SDDPA", 4), (*b"SDDPB", 1)]);
    Ok(())
}

#[test]
fn tables_of_a_row_too_few(rt: HostRuntime) -> Result<(), Fail> {
    let mut rows = [row(b'A', 77); 63];
    let mut list = used_list();
    let mut ring = Ring {
        setting: Setting::new(3, 6)?,
        puts: 1 << 30,
        size: 64,
    };
    assert_eq!(rt; put(&mut ring, &mut rows, b'B'), Err(Refusal::ShortTable));
    assert_eq!(rt;
        ring.count(&rows, &[], &key(b'B')),
        Err(Refusal::ShortTable)
    );
    assert_eq!(rt;
        ring.list(&rows, &[], 0, &mut list),
        Err(Refusal::ShortTable)
    );
    are_rows(&rt, &rows, &[row(b'A', 77); 63]);
    untouched(&rt, &list);
    assert_eq!(rt; (ring.puts(), ring.size()), (1 << 30, 64));
    Ok(())
}

#[test]
fn tables_of_just_enough_rows(rt: HostRuntime) -> Result<(), Fail> {
    let mut rows = [row(b'A', 77); 64];
    let mut list = used_list();
    let mut ring = fresh()?;
    assert_eq!(rt; put(&mut ring, &mut rows, b'B'), Ok(()));
    assert_eq!(rt; ring.count(&rows, &[], &key(b'B')), Ok((1, 1)));
    assert_eq!(rt; ring.list(&rows, &[], 1, &mut list), Ok(1));
    Ok(())
}

#[test]
fn puts_past_the_most(rt: HostRuntime) -> Result<(), Fail> {
    let mut rows = used_rows();
    let mut ring = Ring {
        setting: Setting::new(3, 6)?,
        puts: (1 << 30) - 1,
        size: 63,
    };
    assert_eq!(rt; put(&mut ring, &mut rows, b'B'), Ok(()));
    let before = rows;
    assert_eq!(rt; put(&mut ring, &mut rows, b'C'), Err(Refusal::Spent));
    drop_oldest(&mut ring)?;
    assert_eq!(rt; put(&mut ring, &mut rows, b'C'), Err(Refusal::Spent));
    are_rows(&rt, &rows, &before);
    assert_eq!(rt; (ring.puts(), ring.size()), (1 << 30, 63));
    Ok(())
}

#[test]
fn a_full_window(rt: HostRuntime) -> Result<(), Fail> {
    let mut rows = used_rows();
    let mut ring = fresh()?;
    for _ in 0..64 {
        put(&mut ring, &mut rows, b'B')?;
    }
    let before = rows;
    assert_eq!(rt; put(&mut ring, &mut rows, b'C'), Err(Refusal::Full));
    are_rows(&rt, &rows, &before);
    assert_eq!(rt; (ring.puts(), ring.size()), (64, 64));
    drop_oldest(&mut ring)?;
    assert_eq!(rt; put(&mut ring, &mut rows, b'C'), Ok(()));
    assert_eq!(rt; ring.count(&rows, &[], &key(b'B')), Ok((63, 63)));
    Ok(())
}

#[test]
fn thresholds_too_low(rt: HostRuntime) -> Result<(), Fail> {
    let mut rows = used_rows();
    let mut list = used_list();
    let mut ring = fresh()?;
    assert_eq!(rt;
        ring.list(&rows, &[], 0, &mut list),
        Err(Refusal::Threshold)
    );
    for _ in 0..17 {
        put(&mut ring, &mut rows, b'B')?;
    }
    assert_eq!(rt; ring.list(&rows, &[], 2, &mut []), Err(Refusal::Threshold));
    assert_eq!(rt;
        ring.list(&rows, &[], 2, &mut list),
        Err(Refusal::Threshold)
    );
    untouched(&rt, &list);
    assert_eq!(rt; ring.list(&rows, &[], 3, &mut []), Err(Refusal::ShortList));
    assert_eq!(rt; ring.list(&rows, &[], 3, &mut list), Ok(1));
    drop_oldest(&mut ring)?;
    assert_eq!(rt; ring.list(&rows, &[], 2, &mut list), Ok(1));
    assert_eq!(rt; ring.list(&rows, &[], u32::MAX, &mut list), Ok(0));
    Ok(())
}

#[test]
fn a_list_of_a_place_too_few(rt: HostRuntime) -> Result<(), Fail> {
    let mut rows = used_rows();
    let mut list = used_list();
    let mut ring = moved_on(&mut rows)?;
    for letter in *b"BCDBC" {
        put(&mut ring, &mut rows, letter)?;
    }
    assert_eq!(rt;
        ring.list(&rows, &[], 1, &mut list[..2]),
        Err(Refusal::ShortList)
    );
    untouched(&rt, &list);
    assert_eq!(rt; ring.list(&rows, &[], 1, &mut list[..3]), Ok(3));
    untouched(&rt, &list[3..]);
    Ok(())
}
