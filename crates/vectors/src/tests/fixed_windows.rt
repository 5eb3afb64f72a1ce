use super::{are_entries, are_rows, fresh, is_exact, key, untouched, used_list, used_rows};
use keeper::{Keeper, Lengths, Record, Refusal};
use likeness::AddressKey;
use ring::Ring;
use settings::Setting;
use std::process::Abort;
use std::test::Fail;
use tally::Row;
use windows::{Filling, Sliding, WindowRefusal};

// A window that is being filled to this size.
fn filling(goal: u32) -> Result<Filling<Ring>, Fail> {
    let ring = fresh()?;
    match Filling::new(ring, goal) {
        Ok(window) => Ok(window),
        Err(_) => Err(Fail::new("no window of this size")),
    }
}

// A window of this size that slides, with these keys.
fn sliding(rows: &mut [Row<AddressKey>], goal: u32, letters: &[u8]) -> Result<Sliding<Ring>, Fail> {
    let mut window = filling(goal)?;
    for letter in letters {
        window.put(rows, &mut [], key(*letter))?;
    }
    match window.turn() {
        Ok(window) => Ok(window),
        Err(_) => Err(Fail::new("not turned")),
    }
}

#[test]
fn sizes_at_their_edges(rt: HostRuntime) -> Result<(), Fail> {
    for goal in [1, 2, 14, 15] {
        let window = filling(goal)?;
        assert_eq!(rt; (window.goal(), window.size(), window.puts()), (goal, 0, 0));
        assert_eq!(rt; window.setting(), Setting::new(1, 4)?);
        assert_eq!(rt; window.needs(), Lengths { rows: 16, heads: 0 });
    }
    for goal in [0, 16, 17, u32::MAX] {
        let Err(back) = Filling::new(fresh()?, goal) else {
            return Err(Fail::new("a window of a size that cannot be"));
        };
        assert_eq!(rt; back.refusal, WindowRefusal::Unfit);
        assert_eq!(rt; (back.value.puts(), back.value.size()), (0, 0));
    }
    Ok(())
}

#[test]
fn a_keeper_that_is_not_empty_comes_back(rt: HostRuntime) -> Result<(), Fail> {
    let mut rows = used_rows();
    let mut ring = fresh()?;
    ring.put(&mut rows, &mut [], key(b'B'))?;
    let Err(back) = Filling::new(ring, 5) else {
        return Err(Fail::new("a window on a keeper that is not empty"));
    };
    assert_eq!(rt; back.refusal, WindowRefusal::Unfit);
    let mut ring = back.value;
    assert_eq!(rt; (ring.puts(), ring.size()), (1, 1));
    assert_eq!(rt; ring.count(&rows, &[], &key(b'B')), Ok((1, 1)));
    // An empty keeper need not be new.
    <Ring as Keeper<AddressKey>>::drop_oldest(&mut ring)?;
    assert!(rt; Filling::new(ring, 5).is_ok());
    Ok(())
}

#[test]
fn puts_until_it_has_its_size(rt: HostRuntime) -> Result<(), Fail> {
    let mut rows = used_rows();
    let mut window = filling(3)?;
    for (size, letter) in (1..).zip(b"ABA") {
        assert_eq!(rt; window.put(&mut rows, &mut [], key(*letter)), Ok(()));
        assert_eq!(rt; window.size(), size);
    }
    let before = rows;
    assert_eq!(rt;
        window.put(&mut rows[..15], &mut [], key(b'C')),
        Err(Refusal::ShortTable)
    );
    assert_eq!(rt;
        window.put(&mut rows, &mut [], key(b'C')),
        Err(Refusal::Full)
    );
    are_rows(&rt, &rows, &before);
    assert_eq!(rt; (window.size(), window.goal()), (3, 3));
    assert_eq!(rt; window.count(&rows, &[], &key(b'A')), Ok((2, 2)));
    Ok(())
}

#[test]
fn turns_at_its_size_and_not_before(rt: HostRuntime) -> Result<(), Fail> {
    let mut rows = used_rows();
    let mut window = filling(2)?;
    for letter in b"AB" {
        let Err(back) = window.turn() else {
            return Err(Fail::new("turned before it had its size"));
        };
        assert_eq!(rt; back.refusal, WindowRefusal::Unfilled);
        window = back.value;
        window.put(&mut rows, &mut [], key(*letter))?;
    }
    let Ok(window) = window.turn() else {
        return Err(Fail::new("not turned"));
    };
    assert_eq!(rt; window.size(), 2);
    assert_eq!(rt; window.count(&rows, &[], &key(b'B')), Ok((1, 1)));
    Ok(())
}

// Whether a window that slides counts what is truly in it.
fn counts_truly(
    rt: &impl Abort,
    window: &Sliding<Ring>,
    rows: &[Row<AddressKey>],
    keys: &[AddressKey],
) -> Result<(), Refusal> {
    for letter in *b"ABCDEF" {
        is_exact(rt, window.count(rows, &[], &key(letter))?, keys, letter);
    }
    Ok(())
}

#[test]
fn slides_for_several_rounds(rt: HostRuntime) -> Result<(), Fail> {
    for (goal, letters) in [(1, &b"A"[..]), (5, b"ABACA"), (15, b"ABACABADABACABA")] {
        let mut rows = used_rows();
        let mut window = sliding(&mut rows, goal, letters)?;
        let mut keys = Vec::new(rt.alloc());
        for letter in letters {
            keys.push(key(*letter))?;
        }
        for letter in b"FABACEABFACABADEFBACABFAEDCBABACFEABACDABA" {
            window.slide(&mut rows, &mut [], key(*letter))?;
            keys.push(key(*letter))?;
            keys.remove(0);
            assert_eq!(rt; window.size(), goal);
            counts_truly(&rt, &window, &rows, &keys)?;
        }
    }
    Ok(())
}

#[test]
fn a_slide_with_a_row_too_few(rt: HostRuntime) -> Result<(), Fail> {
    let mut rows = used_rows();
    let mut window = sliding(&mut rows, 3, b"ABC")?;
    let before = rows;
    assert_eq!(rt;
        window.slide(&mut rows[..15], &mut [], key(b'D')),
        Err(Refusal::ShortTable)
    );
    are_rows(&rt, &rows, &before);
    assert_eq!(rt; window.count(&rows, &[], &key(b'A')), Ok((1, 1)));
    assert_eq!(rt; window.puts(), 3);
    assert_eq!(rt; window.slide(&mut rows, &mut [], key(b'D')), Ok(()));
    assert_eq!(rt; (window.size(), window.puts()), (3, 4));
    assert_eq!(rt; window.setting(), Setting::new(1, 4)?);
    assert_eq!(rt; window.needs(), Lengths { rows: 16, heads: 0 });
    assert_eq!(rt; window.count(&rows, &[], &key(b'A')), Ok((0, 0)));
    Ok(())
}

#[test]
fn questions_to_both(rt: HostRuntime) -> Result<(), Fail> {
    let mut rows = used_rows();
    let mut list = used_list();
    let mut window = filling(5)?;
    assert_eq!(rt; window.count(&rows, &[], &key(b'A')), Ok((0, 0)));
    for letter in b"ABBCB" {
        window.put(&mut rows, &mut [], key(*letter))?;
    }
    assert_eq!(rt;
        window.list(&rows, &[], 2, &mut list),
        Err(Refusal::Threshold)
    );
    assert_eq!(rt;
        window.list(&rows, &[], 3, &mut []),
        Err(Refusal::ShortList)
    );
    untouched(&rt, &list);
    assert_eq!(rt; window.list(&rows, &[], 3, &mut list), Ok(1));
    are_entries(&rt, &list[..1], &[(b'B', 3)]);
    let Ok(mut window) = window.turn() else {
        return Err(Fail::new("not turned"));
    };
    window.slide(&mut rows, &mut [], key(b'C'))?;
    window.slide(&mut rows, &mut [], key(b'C'))?;
    assert_eq!(rt;
        window.list(&rows[..15], &[], 0, &mut list),
        Err(Refusal::ShortTable)
    );
    assert_eq!(rt;
        window.list(&rows, &[], 0, &mut list),
        Err(Refusal::Threshold)
    );
    assert_eq!(rt;
        window.list(&rows, &[], 3, &mut []),
        Err(Refusal::ShortList)
    );
    are_entries(&rt, &list[..1], &[(b'B', 3)]);
    assert_eq!(rt; window.list(&rows, &[], 3, &mut list), Ok(1));
    are_entries(&rt, &list[..1], &[(b'C', 3)]);
    untouched(&rt, &list[1..]);
    Ok(())
}

#[test]
fn refusals_by_number(rt: HostRuntime) -> Result<(), Fail> {
    let cases = [
        (WindowRefusal::Unfit, 3, "refused 3"),
        (WindowRefusal::Unfilled, 9, "refused 9"),
        (WindowRefusal::from(Refusal::Full), 7, "refused 7"),
    ];
    for (refusal, number, words) in cases {
        assert_eq!(rt; refusal.number(), number);
        let text = format!(in rt.alloc(); "{refusal}")?;
        assert_eq!(rt; text.as_str(), words);
    }
    Ok(())
}
