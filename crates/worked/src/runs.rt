//! The cases as the library answers them.

use bands::band_of;
use keeper::{Entry, Keeper, Record, Refusal};
use ladder::Ladder;
use layout::Layout;
use likeness::{AddressKey, Likeness};
use settings::Setting;
use std::alloc::Global;
use std::test::Fail;
use tally::{EMPTY, Head, Row, Tally};

type Numbers = Result<Vec<u32>, Fail>;

// An address of the kind that a number from 1 on names: `DPA` is 1.
fn key(number: u8) -> AddressKey {
    AddressKey {
        bytes: [b'S', b'D', b'D', b'P', b'@' | number],
    }
}

fn number(key: &AddressKey) -> u32 {
    (key.bytes[4] & 31) as u32
}

fn row(number: u8) -> Row<AddressKey> {
    Row {
        key: key(number),
        count: 9,
    }
}

// The rows in use, and what is lost.
fn tally(keys: &[u8], heap: Global) -> Numbers {
    let mut rows = [row(31); 2];
    let mut tally = Tally::new(&mut rows, EMPTY);
    for key_number in keys {
        tally.step(key(*key_number));
    }
    let head = tally.head();
    let mut numbers = Vec::new(heap);
    for row in rows.iter().take(head.used as usize) {
        numbers.push(number(&row.key))?;
        numbers.push(row.count)?;
    }
    numbers.push(head.lost)?;
    Ok(numbers)
}

// The sizes of a cover's blocks, and what it ignores.
fn cover(layout: Layout, puts: u32, held: u32, heap: Global) -> Numbers {
    let cover = layout.cover(puts, held);
    let mut numbers = Vec::new(heap);
    for block in cover.blocks {
        numbers.push(block.size())?;
    }
    numbers.push(cover.ignored)?;
    Ok(numbers)
}

fn need(accuracy: u32, span: u32, heap: Global) -> Numbers {
    let ladder = <Ladder as Keeper<AddressKey>>::fresh(Setting::new(accuracy, span)?);
    let need = ladder.needs();
    Ok(vec![in heap; u32::try_from(need.rows)?, u32::try_from(need.heads)?]?)
}

// A ladder of accuracy 1 and span 5 beside its tables.
#[derive(Drop)]
struct Kept {
    ladder: Ladder,
    rows: [Row<AddressKey>; 1038],
    heads: [Head; 72],
}

impl Kept {
    // So many keys came to it, all of them 7.
    fn after(keys: u32) -> Result<Kept, Fail> {
        let mut kept = Kept {
            ladder: <Ladder as Keeper<AddressKey>>::fresh(Setting::new(1, 5)?),
            rows: [row(31); 1038],
            heads: [Head { used: 7, lost: 7 }; 72],
        };
        for _ in 0..keys {
            kept.ladder.put(&mut kept.rows, &mut kept.heads, key(7))?;
        }
        Ok(kept)
    }

    fn count(&self, heap: Global) -> Numbers {
        let (floor, ceiling) = self.ladder.count(&self.rows, &self.heads, &key(7))?;
        Ok(vec![in heap; floor, ceiling]?)
    }

    fn list(&self, threshold: u32, heap: Global) -> Numbers {
        let mut list = [Entry {
            key: key(31),
            floor: 9,
            ceiling: 9,
        }; 32];
        let mut numbers = Vec::new(heap);
        match self
            .ladder
            .list(&self.rows, &self.heads, threshold, &mut list)
        {
            Ok(named) => {
                for entry in list.iter().take(named) {
                    numbers.push(number(&entry.key))?;
                    numbers.push(entry.floor)?;
                    numbers.push(entry.ceiling)?;
                }
            }
            Err(refusal) => numbers.push(refusal.number() as u32)?,
        }
        Ok(numbers)
    }

    fn drop_oldest(&mut self, heap: Global) -> Numbers {
        let mut numbers = Vec::new(heap);
        if let Err(refusal) = <Ladder as Keeper<AddressKey>>::drop_oldest(&mut self.ladder) {
            numbers.push(refusal.number() as u32)?;
        }
        Ok(numbers)
    }
}

fn bands(clearances: &[i32], heap: Global) -> Numbers {
    let mut numbers = Vec::new(heap);
    for clearance in clearances {
        numbers.push(band_of(*clearance).value() as u32)?;
    }
    Ok(numbers)
}

fn alike(one: [u8; 5], others: &[[u8; 5]], heap: Global) -> Numbers {
    let one = AddressKey { bytes: one };
    let mut numbers = Vec::new(heap);
    for other in others {
        numbers.push(one.is_alike(&AddressKey { bytes: *other }) as u32)?;
    }
    Ok(numbers)
}

// What the library answers in each case, in the order of the table.
fn answers(heap: Global) -> Result<Vec<Vec<u32>>, Fail> {
    Ok(vec![in heap;
        tally(&[1, 2, 1, 3], heap)?,
        tally(&[1, 2, 1, 3, 4, 2], heap)?,
        cover(Layout::of(Setting::new(1, 7)?), 100, 90, heap)?,
        Kept::after(16)?.count(heap)?,
        Kept::after(17)?.count(heap)?,
        Kept::after(17)?.list(8, heap)?,
        Kept::after(17)?.list(9, heap)?,
        need(1, 4, heap)?,
        need(6, 20, heap)?,
        bands(&[45, 46, 98, -60], heap)?,
        alike(*b"SDDPT", &[*b"IIDPT", *b"SDDBT"], heap)?,
        Kept::after(0)?.count(heap)?,
        Kept::after(0)?.drop_oldest(heap)?,
    ]?)
}

#[test]
fn the_library_answers_what_the_table_says(rt: HostRuntime) -> Result<(), Fail> {
    let answers = answers(rt.alloc())?;
    let cases = super::worked_cases();
    assert_eq!(rt; answers.len(), cases.len());
    for (case, answer) in cases.iter().zip(&answers) {
        assert_eq!(rt; (case.asked, case.numbers), (case.asked, answer.as_slice()));
    }
    Ok(())
}
