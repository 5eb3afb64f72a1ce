//! The tally: a Misra-Gries summary of keys, in rows that the caller lends.
#![tactic(auto)]

mod rows;
mod slot;
mod steps;
mod tally;

pub use rows::{EMPTY, Head, Row};
pub use slot::{Slot, count_among};
pub use steps::step;
pub use tally::{Tally, tally_of};

#[cfg(test)]
mod tests {
    use super::*;
    use likeness::AddressKey;

    fn key(letter: u8) -> AddressKey {
        AddressKey {
            bytes: [b'S', b'D', b'D', b'P', letter],
        }
    }

    fn row(letter: u8, count: u32) -> Row<AddressKey> {
        Row {
            key: key(letter),
            count,
        }
    }

    #[test]
    fn key_after_key(rt: HostRuntime) {
        let mut rows = [row(b'C', 9); 2];
        let mut tally = Tally::new(&mut rows, EMPTY);
        for letter in *b"ABAC" {
            tally.step(key(letter));
        }
        assert_eq!(rt; tally.head(), Head { used: 1, lost: 1 });
        assert_eq!(rt; tally.slot().find(&key(b'A')), Some(0));
        assert_eq!(rt; tally.slot().count_of(&key(b'A')), 1);
        assert_eq!(rt; tally.slot().find(&key(b'C')), None);
        tally.step(key(b'D'));
        tally.step(key(b'B'));
        assert_eq!(rt; tally.head(), Head { used: 0, lost: 2 });
    }

    #[test]
    fn a_list_of_keys(rt: HostRuntime) {
        let mut rows = [row(b'B', 7); 3];
        let keys = [key(b'A'), key(b'B'), key(b'B'), key(b'C'), key(b'D')];
        let head = tally_of(&mut rows, &keys);
        assert_eq!(rt; head, Head { used: 1, lost: 1 });
        let slot = Slot { rows: &rows, head };
        assert_eq!(rt; slot.count_of(&key(b'B')), 1);
        assert_eq!(rt; slot.count_of(&key(b'A')), 0);
    }

    #[test]
    fn the_first_alike_row_keeps_its_key(rt: HostRuntime) {
        let mut rows = [row(b'B', 4), row(b'A', 1), row(b'A', 2)];
        let head = Head { used: 3, lost: 0 };
        assert_eq!(rt;
            step(&mut rows, head, AddressKey { bytes: *b"IIDPA" }),
            head
        );
        assert_eq!(rt; rows[1].key.bytes, *b"SDDPA");
        assert_eq!(rt; rows[1].count, 2);
        assert_eq!(rt; rows[2].count, 2);
    }

    #[test]
    fn more_used_than_rows(rt: HostRuntime) {
        let mut rows = [row(b'A', 5), row(b'B', 1)];
        let head = Head { used: 9, lost: 3 };
        assert_eq!(rt; Slot { rows: &rows, head }.find(&key(b'B')), Some(1));
        assert_eq!(rt; step(&mut rows, head, key(b'C')), Head { used: 1, lost: 4 });
        assert_eq!(rt; rows[0].key.bytes, *b"SDDPA");
        assert_eq!(rt; rows[0].count, 4);
    }

    #[test]
    fn numbers_at_the_top(rt: HostRuntime) {
        let mut rows = [row(b'A', u32::MAX)];
        let head = Head {
            used: 1,
            lost: u32::MAX,
        };
        assert_eq!(rt; step(&mut rows, head, key(b'A')), head);
        assert_eq!(rt; rows[0].count, u32::MAX);
        assert_eq!(rt; step(&mut rows, head, key(b'B')), head);
        assert_eq!(rt; rows[0].count, u32::MAX - 1);
    }

    #[test]
    fn counts_of_0(rt: HostRuntime) {
        let mut rows = [row(b'A', 0), row(b'B', 3)];
        let head = Head { used: 2, lost: 0 };
        let slot = Slot { rows: &rows, head };
        assert_eq!(rt; slot.count_of(&key(b'A')), 0);
        assert_eq!(rt; step(&mut rows, head, key(b'C')), Head { used: 1, lost: 1 });
        assert_eq!(rt; rows[0].key.bytes, *b"SDDPB");
        assert_eq!(rt; rows[0].count, 2);
    }

    #[test]
    fn a_part_of_a_table(rt: HostRuntime) {
        let mut table = [row(b'A', 8); 4];
        let mut tally = Tally::new(&mut table[1..3], EMPTY);
        for letter in *b"BCBD" {
            tally.step(key(letter));
        }
        assert_eq!(rt; tally.head(), Head { used: 1, lost: 1 });
        assert_eq!(rt; table[0].count, 8);
        assert_eq!(rt; table[1].key.bytes, *b"SDDPB");
        assert_eq!(rt; table[1].count, 1);
        assert_eq!(rt; table[3].count, 8);
    }

    #[test]
    fn a_slot_without_rows(rt: HostRuntime) {
        let mut rows: [Row<AddressKey>; 0] = [];
        assert_eq!(rt;
            step(&mut rows, EMPTY, key(b'A')),
            Head { used: 0, lost: 1 }
        );
    }
}
