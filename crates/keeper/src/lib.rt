//! Keepers: anything that can answer counts and lists for a window whose length changes.
#![tactic(auto)]

ghost use Rattle.std.specs.Prelude.{◌<◌, ◌^◌, length, map};
ghost use Rattle.keeper.specs.Listing.{all_keys};

mod admission;
mod entry;
mod keeping;
mod lengths;
mod listing;
mod refusal;

pub use admission::{admit_drop, admit_list, admit_put, admit_tables};
pub use entry::Entry;
pub use keeping::{Keeper, Record};
pub use lengths::Lengths;
pub use listing::{Source, list_from, pieces_hold, rows_hold};
pub use refusal::Refusal;

#[cfg(test)]
mod tests {
    use super::*;
    use likeness::AddressKey;
    use std::process::Abort;
    use std::test::Fail;
    use tally::{EMPTY, Row};

    #[test]
    fn tables_and_needs(rt: HostRuntime) {
        let row = Row {
            key: AddressKey { bytes: *b"SDDPT" },
            count: 1,
        };
        let lent = Lengths::of(&[row; 3], &[EMPTY; 2]);
        assert_eq!(rt; lent, Lengths { rows: 3, heads: 2 });
        assert!(rt; !lent.is_short_of(Lengths { rows: 3, heads: 2 }));
        assert!(rt; !lent.is_short_of(Lengths { rows: 0, heads: 0 }));
        assert!(rt; lent.is_short_of(Lengths { rows: 4, heads: 0 }));
        assert!(rt; lent.is_short_of(Lengths { rows: 0, heads: 3 }));
    }

    #[test]
    fn refusals_by_number(rt: HostRuntime) {
        let cases = [
            (Refusal::ShortTable, 4),
            (Refusal::ShortList, 5),
            (Refusal::Spent, 6),
            (Refusal::Full, 7),
            (Refusal::Vacant, 8),
            (Refusal::Threshold, 10),
        ];
        for (refusal, number) in cases {
            assert_eq!(rt; refusal.number(), number);
        }
    }

    #[test]
    fn refusals_in_words(rt: HostRuntime) -> Result<(), Fail> {
        let cases = [
            (Refusal::ShortTable, "refused 4"),
            (Refusal::ShortList, "refused 5"),
            (Refusal::Spent, "refused 6"),
            (Refusal::Full, "refused 7"),
            (Refusal::Vacant, "refused 8"),
            (Refusal::Threshold, "refused 10"),
        ];
        for (refusal, words) in cases {
            let text = format!(in rt.alloc(); "{refusal}")?;
            assert_eq!(rt; text.as_str(), words);
        }
        Ok(())
    }

    // Rows in two pieces, whose keys all have one bracket.
    #[derive(Drop)]
    struct Pieces {
        pieces: [&'static [Row<AddressKey>]; 2],
        ghost few: { length (all_keys (map (λ rows. rows.now) pieces)) < 2 ^ 64 },
    }

    impl Source<AddressKey> for Pieces {
        ghost pieces = { λ s. map (λ rows. rows.now) s.pieces };

        ghost bracket = { λ s key. (2, 5) };

        fn pieces(&self) -> &[&[Row<AddressKey>]] {
            &self.pieces
        }

        fn is_known_before(
            &self,
            number: usize,
            before: &[Row<AddressKey>],
            key: &AddressKey,
        ) -> bool {
            pieces_hold(&self.pieces, number, key) || rows_hold(before, key)
        }

        fn bracket_from(
            &self,
            _number: usize,
            _rows: &[Row<AddressKey>],
            _key: &AddressKey,
        ) -> (u32, u32) {
            (2, 5)
        }
    }

    const OLDER: [Row<AddressKey>; 2] = [
        Row {
            key: AddressKey { bytes: *b"SDDPT" },
            count: 0,
        },
        Row {
            key: AddressKey { bytes: *b"SDDBT" },
            count: 0,
        },
    ];

    const NEWER: [Row<AddressKey>; 3] = [
        Row {
            key: AddressKey { bytes: *b"IIDPT" },
            count: 0,
        },
        Row {
            key: AddressKey { bytes: *b"SDHDT" },
            count: 0,
        },
        Row {
            key: AddressKey { bytes: *b"IIDBT" },
            count: 0,
        },
    ];

    fn source() -> Pieces {
        Pieces {
            pieces: [&OLDER, &NEWER],
        }
    }

    const USED: ([u8; 5], u32, u32) = (*b"--ZDA", 8, 9);

    fn used_list() -> [Entry<AddressKey>; 4] {
        [Entry {
            key: AddressKey { bytes: *b"--ZDA" },
            floor: 8,
            ceiling: 9,
        }; 4]
    }

    fn are_entries(rt: &impl Abort, list: &[Entry<AddressKey>], wanted: &[([u8; 5], u32, u32)]) {
        assert_eq!(rt; list.len(), wanted.len());
        for (entry, other) in list.iter().zip(wanted) {
            assert_eq!(rt; (entry.key.bytes, entry.floor, entry.ceiling), *other);
        }
    }

    #[test]
    fn entries_by_first_places(rt: HostRuntime) {
        let mut list = used_list();
        assert_eq!(rt; list_from(&source(), 5, &mut list), Ok(3));
        are_entries(
            &rt,
            &list,
            &[
                (*b"SDDPT", 2, 5),
                (*b"SDDBT", 2, 5),
                (*b"SDHDT", 2, 5),
                USED,
            ],
        );
    }

    #[test]
    fn a_threshold_above_every_ceiling(rt: HostRuntime) {
        let mut list = used_list();
        assert_eq!(rt; list_from(&source(), 6, &mut list), Ok(0));
        are_entries(&rt, &list, &[USED; 4]);
    }

    #[test]
    fn a_list_of_just_enough_places(rt: HostRuntime) {
        let mut list = used_list();
        assert_eq!(rt; list_from(&source(), 3, &mut list[..3]), Ok(3));
        are_entries(&rt, &list[2..], &[(*b"SDHDT", 2, 5), USED]);
    }

    #[test]
    fn a_list_of_a_place_too_few(rt: HostRuntime) {
        let mut list = used_list();
        assert_eq!(rt;
            list_from(&source(), 3, &mut list[..2]),
            Err(Refusal::ShortList)
        );
        are_entries(&rt, &list, &[USED; 4]);
    }
}
