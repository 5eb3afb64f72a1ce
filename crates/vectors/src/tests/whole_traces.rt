use super::{are_entries, are_rows, fresh, key, untouched, used_list, used_rows};
use keeper::{Entry, Record};
use likeness::{AddressKey, true_count};
use ring::Ring;
use settings::Setting;
use std::alloc::{AllocError, Global};
use std::process::Abort;
use std::test::Fail;
use tally::Row;
use traces::{Answer, Call, Stage, Trace, run_trace};

// What an answer has to be; exact counts, since the keeper is a ring.
#[derive(Clone, Copy)]
enum Wanted<'a> {
    Done,
    Refused(u8),
    Counted(u32),
    Listed(&'a [(u8, u32)]),
    NotInTrace,
}

fn is_answer(rt: &impl Abort, answer: &Answer<Vec<Entry<AddressKey>>>, wanted: Wanted) {
    match (answer, wanted) {
        (Answer::Done, Wanted::Done) | (Answer::NotInTrace, Wanted::NotInTrace) => {}
        (Answer::Refused(refusal), Wanted::Refused(number)) => {
            assert_eq!(rt; refusal.number(), number);
        }
        (Answer::Counted { floor, ceiling }, Wanted::Counted(count)) => {
            assert_eq!(rt; (*floor, *ceiling), (count, count));
        }
        (Answer::Listed(entries), Wanted::Listed(wanted)) => are_entries(rt, entries, wanted),
        _ => assert!(rt; false, "another answer"),
    }
}

fn are_answers(
    rt: &impl Abort,
    answers: &[Answer<Vec<Entry<AddressKey>>>],
    wanted: &[(Call<AddressKey>, Wanted)],
) {
    assert_eq!(rt; answers.len(), wanted.len());
    for (answer, (_, wanted)) in answers.iter().zip(wanted) {
        is_answer(rt, answer, *wanted);
    }
}

// A trace of a ring of accuracy 1 and span 4, which needs 16 rows.
fn run(
    heap: Global,
    rows: &mut [Row<AddressKey>],
    list: &mut [Entry<AddressKey>],
    calls: &[Call<AddressKey>],
) -> Result<Trace<AddressKey, Ring>, Fail> {
    let setting = Setting::new(1, 4)?;
    let trace = run_trace(setting, rows, &mut [], list, calls, heap)?;
    Ok(trace)
}

// The example of the documents.
#[test]
fn a_trace_through_all_states(rt: HostRuntime) -> Result<(), Fail> {
    let wanted = [
        (Call::Turn, Wanted::NotInTrace),
        (Call::Fix(16), Wanted::Refused(3)),
        (Call::Put(key(b'A')), Wanted::Done),
        (Call::Fix(3), Wanted::Refused(3)),
        (Call::DropOldest, Wanted::Done),
        (Call::DropOldest, Wanted::Refused(8)),
        (Call::Count(key(b'A')), Wanted::Counted(0)),
        (Call::Fix(3), Wanted::Done),
        (Call::Put(key(b'B')), Wanted::Done),
        (Call::DropOldest, Wanted::NotInTrace),
        (Call::Turn, Wanted::Refused(9)),
        (Call::Put(key(b'A')), Wanted::Done),
        (Call::Put(key(b'B')), Wanted::Done),
        (Call::Put(key(b'C')), Wanted::Refused(7)),
        (Call::Count(key(b'B')), Wanted::Counted(2)),
        (Call::Turn, Wanted::Done),
        (Call::Put(key(b'C')), Wanted::NotInTrace),
        (Call::Slide(key(b'C')), Wanted::Done),
        (Call::Count(key(b'B')), Wanted::Counted(1)),
        (Call::List(1), Wanted::Refused(10)),
        (Call::List(2), Wanted::Listed(&[])),
        (Call::Slide(key(b'C')), Wanted::Done),
        (Call::List(2), Wanted::Listed(&[(b'C', 2)])),
    ];
    let mut calls = Vec::new(rt.alloc());
    for (call, _) in &wanted {
        calls.push(*call)?;
    }
    let mut rows = used_rows();
    let mut list = used_list();
    let Trace { stage, answers } = run(rt.alloc(), &mut rows, &mut list, &calls)?;
    are_answers(&rt, &answers, &wanted);
    are_entries(&rt, &list[..1], &[(b'C', 2)]);
    untouched(&rt, &list[1..]);
    let Stage::Sliding(window) = stage else {
        return Err(Fail::new("another state"));
    };
    assert_eq!(rt; window.size(), 3);
    assert_eq!(rt; window.count(&rows, &[], &key(b'C')), Ok((2, 2)));
    Ok(())
}

#[test]
fn tables_of_a_row_too_few(rt: HostRuntime) -> Result<(), Fail> {
    let wanted = [
        (Call::Put(key(b'B')), Wanted::Refused(4)),
        (Call::Count(key(b'B')), Wanted::Refused(4)),
        (Call::List(0), Wanted::Refused(4)),
        (Call::DropOldest, Wanted::Refused(8)),
        (Call::Fix(0), Wanted::Refused(3)),
        (Call::Fix(1), Wanted::Done),
        (Call::Put(key(b'B')), Wanted::Refused(4)),
        (Call::Slide(key(b'B')), Wanted::NotInTrace),
        (Call::Turn, Wanted::Refused(9)),
    ];
    let mut calls = Vec::new(rt.alloc());
    for (call, _) in &wanted {
        calls.push(*call)?;
    }
    let mut rows = [used_rows()[0]; 15];
    let Trace { stage, answers } = run(rt.alloc(), &mut rows, &mut [], &calls)?;
    are_answers(&rt, &answers, &wanted);
    are_rows(&rt, &rows, &used_rows()[..15]);
    assert!(rt; matches!(&stage, Stage::Filling(_)));
    Ok(())
}

#[test]
fn a_list_without_room(rt: HostRuntime) -> Result<(), Fail> {
    let calls = [
        Call::List(1),
        Call::Put(key(b'B')),
        Call::List(1),
        Call::Count(key(b'B')),
    ];
    let mut rows = used_rows();
    let Trace { stage, answers } = run(rt.alloc(), &mut rows, &mut [], &calls)?;
    assert_eq!(rt; answers.len(), 4);
    is_answer(&rt, &answers[0], Wanted::Listed(&[]));
    is_answer(&rt, &answers[2], Wanted::Refused(5));
    is_answer(&rt, &answers[3], Wanted::Counted(1));
    let Stage::Keeper(ring) = stage else {
        return Err(Fail::new("another state"));
    };
    assert_eq!(rt; (ring.puts(), ring.size()), (1, 1));
    Ok(())
}

#[test]
fn one_call_at_a_time(rt: HostRuntime) -> Result<(), Fail> {
    let mut rows = used_rows();
    let mut list = used_list();
    let mut stage = Stage::Keeper(fresh()?);
    for letter in b"ABA" {
        let (next, answer) = stage.step(&mut rows, &mut [], &mut list, Call::Put(key(*letter)));
        assert!(rt; matches!(&answer, Answer::Done));
        stage = next;
    }
    let (stage, answer) = stage.step(&mut rows, &mut [], &mut list, Call::List(2));
    assert!(rt; matches!(&answer, Answer::Listed(1)));
    are_entries(&rt, &list[..1], &[(b'A', 2)]);
    untouched(&rt, &list[1..]);
    assert!(rt; matches!(&stage, Stage::Keeper(_)));
    Ok(())
}

// Calls that are all accepted, beside the window that they make and what each count has to be.
#[derive(Drop)]
struct Script {
    calls: Vec<Call<AddressKey>>,
    counts: Vec<Option<usize>>,
    window: Vec<AddressKey>,
}

impl Script {
    fn change(&mut self, call: Call<AddressKey>) -> Result<(), AllocError> {
        self.counts.push(None)?;
        self.calls.push(call)?;
        Ok(())
    }

    fn put(&mut self, letter: u8) -> Result<(), AllocError> {
        self.window.push(key(letter))?;
        self.change(Call::Put(key(letter)))
    }

    fn drop_oldest(&mut self) -> Result<(), AllocError> {
        if !self.window.is_empty() {
            self.window.remove(0);
        }
        self.change(Call::DropOldest)
    }

    fn slide(&mut self, letter: u8) -> Result<(), AllocError> {
        self.window.push(key(letter))?;
        self.window.remove(0);
        self.change(Call::Slide(key(letter)))
    }

    fn count_some(&mut self) -> Result<(), AllocError> {
        for letter in *b"ABD" {
            self.counts
                .push(Some(true_count(&self.window, &key(letter))))?;
            self.calls.push(Call::Count(key(letter)))?;
        }
        Ok(())
    }
}

// The keeper's window grows and shrinks for some rounds of the rows; then a window of seven fills and slides for some more.
fn long_script(heap: Global) -> Result<Script, AllocError> {
    let mut script = Script {
        calls: Vec::new(heap),
        counts: Vec::new(heap),
        window: Vec::new(heap),
    };
    for letter in b"ABACABADABACABAEDABACABADABACABADECABABACADABABDE" {
        script.put(*letter)?;
        if script.window.len() > 9 {
            script.drop_oldest()?;
            script.drop_oldest()?;
        }
        script.count_some()?;
    }
    for _ in 0..script.window.len() {
        script.drop_oldest()?;
    }
    script.change(Call::Fix(7))?;
    for letter in b"ABACDAA" {
        script.put(*letter)?;
        script.count_some()?;
    }
    script.change(Call::Turn)?;
    for letter in b"DABACABADABACABAEDABACABADABACABADECABABACADABABDE" {
        script.slide(*letter)?;
        script.count_some()?;
    }
    Ok(script)
}

#[test]
fn counts_of_a_long_trace(rt: HostRuntime) -> Result<(), Fail> {
    let script = long_script(rt.alloc())?;
    let mut rows = used_rows();
    let Trace { stage, answers } = run(rt.alloc(), &mut rows, &mut [], &script.calls)?;
    assert_eq!(rt; answers.len(), script.counts.len());
    for (answer, wanted) in answers.iter().zip(&script.counts) {
        match (answer, wanted) {
            (Answer::Done, None) => {}
            (Answer::Counted { floor, ceiling }, Some(count)) => {
                assert_eq!(rt; (*floor as usize, *ceiling as usize), (*count, *count));
            }
            _ => assert!(rt; false, "another answer"),
        }
    }
    assert!(rt; matches!(&stage, Stage::Sliding(_)));
    Ok(())
}
