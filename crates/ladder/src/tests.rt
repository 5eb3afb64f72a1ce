use super::*;
use keeper::{Entry, Keeper, Lengths, Record, Refusal};
use layout::Layout;
use likeness::AddressKey;
use settings::Setting;
use std::process::Abort;
use std::test::Fail;
use tally::{Head, Row};

// What two scales take, at accuracy 1 and span 5.
const ROWS: usize = 1038;

const HEADS: usize = 72;

fn key(letter: u8) -> AddressKey {
    AddressKey {
        bytes: [b'S', b'D', b'D', b'P', letter],
    }
}

fn row(letter: u8, count: u32) -> Row<AddressKey> {
    Row {
        key: key(letter),
        count,
    }
}

// A ladder and its tables. They were used before, and held what no ladder leaves there.
#[derive(Drop)]
struct Kept {
    ladder: Ladder,
    rows: [Row<AddressKey>; ROWS + 1],
    heads: [Head; HEADS + 1],
}

impl Kept {
    fn of(ladder: Ladder) -> Kept {
        Kept {
            ladder,
            rows: [row(b'A', u32::MAX); ROWS + 1],
            heads: [Head {
                used: u32::MAX,
                lost: 77,
            }; HEADS + 1],
        }
    }

    fn fresh() -> Result<Kept, Fail> {
        let setting = Setting::new(1, 5)?;
        Ok(Kept::of(<Ladder as Keeper<AddressKey>>::fresh(setting)))
    }

    fn put(&mut self, letter: u8) -> Result<(), Refusal> {
        self.ladder
            .put(&mut self.rows, &mut self.heads, key(letter))
    }

    fn put_all(&mut self, letters: &[u8]) -> Result<(), Refusal> {
        for letter in letters {
            self.put(*letter)?;
        }
        Ok(())
    }

    fn drop_oldest(&mut self) -> Result<(), Refusal> {
        <Ladder as Keeper<AddressKey>>::drop_oldest(&mut self.ladder)
    }

    fn count(&self, letter: u8) -> Result<(u32, u32), Refusal> {
        self.ladder.count(&self.rows, &self.heads, &key(letter))
    }

    fn list(&self, threshold: u32, list: &mut [Entry<AddressKey>]) -> Result<usize, Refusal> {
        self.ladder.list(&self.rows, &self.heads, threshold, list)
    }
}

fn used_list() -> [Entry<AddressKey>; 5] {
    [Entry {
        key: key(b'Z'),
        floor: 5,
        ceiling: 6,
    }; 5]
}

fn are_entries(rt: &impl Abort, list: &[Entry<AddressKey>], wanted: &[(u8, u32, u32)]) {
    assert_eq!(rt; list.len(), wanted.len());
    for (entry, (letter, floor, ceiling)) in list.iter().zip(wanted) {
        assert_eq!(rt;
            (entry.key.bytes[4], entry.floor, entry.ceiling),
            (*letter, *floor, *ceiling)
        );
    }
}

#[test]
fn an_empty_window(rt: HostRuntime) -> Result<(), Fail> {
    let mut kept = Kept::fresh()?;
    let mut list = used_list();
    assert_eq!(rt; kept.ladder.setting(), Setting::new(1, 5)?);
    assert_eq!(rt;
        kept.ladder.needs(),
        Lengths {
            rows: ROWS,
            heads: HEADS
        }
    );
    assert_eq!(rt; (kept.ladder.puts(), kept.ladder.size()), (0, 0));
    assert_eq!(rt; kept.count(b'A'), Ok((0, 0)));
    assert_eq!(rt; kept.list(1, &mut list), Ok(0));
    are_entries(&rt, &list, &[(b'Z', 5, 6); 5]);
    assert_eq!(rt; kept.drop_oldest(), Err(Refusal::Vacant));
    Ok(())
}

#[test]
fn sixteen_alike(rt: HostRuntime) -> Result<(), Fail> {
    let mut kept = Kept::fresh()?;
    kept.put_all(&[b'K'; 16])?;
    assert_eq!(rt; kept.count(b'K'), Ok((16, 16)));
    assert_eq!(rt; kept.count(b'A'), Ok((0, 0)));
    Ok(())
}

#[test]
fn seventeen_alike(rt: HostRuntime) -> Result<(), Fail> {
    let mut kept = Kept::fresh()?;
    let mut list = used_list();
    kept.put_all(&[b'K'; 17])?;
    assert_eq!(rt; kept.count(b'K'), Ok((16, 17)));
    assert_eq!(rt; kept.count(b'A'), Ok((0, 1)));
    assert_eq!(rt; kept.list(8, &mut list), Err(Refusal::Threshold));
    assert_eq!(rt; kept.list(9, &mut []), Err(Refusal::ShortList));
    are_entries(&rt, &list, &[(b'Z', 5, 6); 5]);
    assert_eq!(rt; kept.list(9, &mut list), Ok(1));
    are_entries(&rt, &list[..1], &[(b'K', 16, 17)]);
    are_entries(&rt, &list[1..], &[(b'Z', 5, 6); 4]);
    Ok(())
}

// The first arrival of a window of an odd number lies in a block that the window's edge cuts.
#[test]
fn a_block_that_the_edge_cuts(rt: HostRuntime) -> Result<(), Fail> {
    let mut kept = Kept::fresh()?;
    kept.put_all(b"ABBBBBBBBBBBBBBBBBCC")?;
    kept.drop_oldest()?;
    assert_eq!(rt; (kept.ladder.puts(), kept.ladder.size()), (20, 19));
    assert_eq!(rt; kept.count(b'A'), Ok((0, 1)));
    assert_eq!(rt; kept.count(b'B'), Ok((16, 17)));
    assert_eq!(rt; kept.count(b'C'), Ok((2, 3)));
    Ok(())
}

// A row has the key that came first of those that are alike, and a list the keys of the oldest block first.
#[test]
fn keys_by_first_place(rt: HostRuntime) -> Result<(), Fail> {
    let mut kept = Kept::fresh()?;
    let mut list = used_list();
    let Kept {
        ladder,
        rows,
        heads,
    } = &mut kept;
    for bytes in [*b"SDDPB", *b"IIDPA", *b"SDDPA", *b"IIDPB", *b"VWDPA"] {
        ladder.put(rows, heads, AddressKey { bytes })?;
    }
    assert_eq!(rt; kept.list(3, &mut list), Ok(1));
    assert_eq!(rt; list[0].key.bytes, *b"IIDPA");
    are_entries(&rt, &list[..1], &[(b'A', 3, 3)]);
    kept.drop_oldest()?;
    assert_eq!(rt; kept.list(2, &mut list), Ok(1));
    assert_eq!(rt; kept.count(b'B'), Ok((1, 1)));
    Ok(())
}

#[test]
fn a_put_writes_its_slots_alone(rt: HostRuntime) -> Result<(), Fail> {
    let mut kept = Kept::fresh()?;
    kept.put_all(&[b'K'; 3])?;
    let before = kept.heads;
    kept.put(b'L')?;
    let changed = kept
        .heads
        .iter()
        .zip(&before)
        .filter(|(head, old)| head != old)
        .count();
    // one at each of five levels, at both scales
    assert_eq!(rt; changed, 10);
    assert_eq!(rt; kept.heads[3], Head { used: 1, lost: 0 });
    assert_eq!(rt;
        kept.heads[HEADS],
        Head {
            used: u32::MAX,
            lost: 77
        }
    );
    assert_eq!(rt;
        (kept.rows[ROWS].key.bytes[4], kept.rows[ROWS].count),
        (b'A', u32::MAX)
    );
    Ok(())
}

// A block's slot is emptied when the block begins, and not before.
#[test]
fn a_slot_that_comes_round(rt: HostRuntime) -> Result<(), Fail> {
    let mut kept = Kept::fresh()?;
    kept.put_all(&[b'K'; 17])?;
    assert_eq!(rt; (kept.rows[0].key.bytes[4], kept.heads[0].used), (b'K', 1));
    kept.put(b'L')?;
    assert_eq!(rt;
        (kept.rows[0].key.bytes[4], kept.heads[0]),
        (b'L', Head { used: 1, lost: 0 })
    );
    assert_eq!(rt; kept.rows[4].key.bytes[4], b'K');
    Ok(())
}

#[test]
fn odd_tables_that_are_asked(rt: HostRuntime) -> Result<(), Fail> {
    let setting = Setting::new(1, 5)?;
    let kept = Kept::of(Ladder {
        setting,
        layout: Layout::of(setting),
        puts: 20,
        size: 5,
    });
    let mut list = used_list();
    assert_eq!(rt; kept.count(b'A'), Ok((u32::MAX, u32::MAX)));
    assert_eq!(rt; kept.count(b'B'), Ok((0, 154)));
    assert_eq!(rt; kept.list(3, &mut list), Ok(1));
    are_entries(&rt, &list[..1], &[(b'A', u32::MAX, u32::MAX)]);
    Ok(())
}

#[test]
fn tables_of_one_too_few(rt: HostRuntime) -> Result<(), Fail> {
    let mut kept = Kept::fresh()?;
    let mut list = used_list();
    kept.put_all(b"AB")?;
    let before = kept.heads;
    let Kept {
        ladder,
        rows,
        heads,
    } = &mut kept;
    assert_eq!(rt;
        ladder.put(&mut rows[..ROWS - 1], heads, key(b'C')),
        Err(Refusal::ShortTable)
    );
    assert_eq!(rt;
        ladder.put(rows, &mut heads[..HEADS - 1], key(b'C')),
        Err(Refusal::ShortTable)
    );
    assert_eq!(rt;
        ladder.count(&rows[..ROWS - 1], heads, &key(b'C')),
        Err(Refusal::ShortTable)
    );
    assert_eq!(rt;
        ladder.list(rows, &heads[..HEADS - 1], 0, &mut list),
        Err(Refusal::ShortTable)
    );
    assert_eq!(rt;
        ladder.count(&rows[..ROWS], &heads[..HEADS], &key(b'A')),
        Ok((1, 1))
    );
    assert_eq!(rt; *heads, before);
    assert_eq!(rt; (ladder.puts(), ladder.size()), (2, 2));
    Ok(())
}

#[test]
fn puts_past_the_most(rt: HostRuntime) -> Result<(), Fail> {
    let setting = Setting::new(1, 5)?;
    let mut kept = Kept::of(Ladder {
        setting,
        layout: Layout::of(setting),
        puts: (1 << 30) - 1,
        size: 31,
    });
    assert_eq!(rt; kept.put(b'B'), Ok(()));
    let before = kept.heads;
    assert_eq!(rt; kept.put(b'C'), Err(Refusal::Spent));
    kept.drop_oldest()?;
    assert_eq!(rt; kept.put(b'C'), Err(Refusal::Spent));
    assert_eq!(rt; kept.heads, before);
    assert_eq!(rt; (kept.ladder.puts(), kept.ladder.size()), (1 << 30, 31));
    Ok(())
}

#[test]
fn a_full_window(rt: HostRuntime) -> Result<(), Fail> {
    let mut kept = Kept::fresh()?;
    kept.put_all(&[b'B'; 32])?;
    let before = kept.heads;
    assert_eq!(rt; kept.put(b'C'), Err(Refusal::Full));
    assert_eq!(rt; kept.heads, before);
    assert_eq!(rt; kept.count(b'B'), Ok((32, 32)));
    kept.drop_oldest()?;
    assert_eq!(rt; kept.put(b'C'), Ok(()));
    assert_eq!(rt; kept.count(b'B'), Ok((30, 32)));
    Ok(())
}

#[test]
fn a_list_of_a_place_too_few(rt: HostRuntime) -> Result<(), Fail> {
    let mut kept = Kept::fresh()?;
    let mut list = used_list();
    kept.put_all(b"BCDBC")?;
    assert_eq!(rt; kept.list(2, &mut list), Err(Refusal::Threshold));
    assert_eq!(rt; kept.list(0, &mut list), Err(Refusal::Threshold));
    kept.drop_oldest()?;
    assert_eq!(rt; kept.list(2, &mut list[..0]), Err(Refusal::ShortList));
    are_entries(&rt, &list, &[(b'Z', 5, 6); 5]);
    assert_eq!(rt; kept.list(2, &mut list[..1]), Ok(1));
    are_entries(&rt, &list[..1], &[(b'C', 2, 2)]);
    Ok(())
}
