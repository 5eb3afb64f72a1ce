use super::{key, used_list};
use keeper::Entry;
use ladder_traces::run_ladder_trace;
use likeness::AddressKey;
use settings::Setting;
use std::process::Abort;
use std::test::Fail;
use tally::{Head, Row};
use traces::{Answer, Call};

// What two scales take, at accuracy 1 and span 5.
const ROWS: usize = 1038;

const HEADS: usize = 72;

fn is_counted(rt: &impl Abort, answer: &Answer<Vec<Entry<AddressKey>>>, bracket: (u32, u32)) {
    if let Answer::Counted { floor, ceiling } = answer {
        assert_eq!(rt; (*floor, *ceiling), bracket);
    } else {
        assert!(rt; false, "no count");
    }
}

// A window of seventeen keys that are alike, and then one that is not.
#[test]
fn a_window_on_a_ladder(rt: HostRuntime) -> Result<(), Fail> {
    let mut rows = [Row {
        key: key(b'A'),
        count: 77,
    }; ROWS];
    let mut heads = [Head { used: 5, lost: 7 }; HEADS];
    let mut list = used_list();
    let mut calls = vec![in rt.alloc(); Call::Put(key(b'K')); 18]?;
    calls[0] = Call::Fix(17);
    for call in [
        Call::Turn,
        Call::Count(key(b'K')),
        Call::List(8),
        Call::List(9),
        Call::Slide(key(b'L')),
        Call::Count(key(b'K')),
        Call::Count(key(b'L')),
    ] {
        calls.push(call)?;
    }
    let setting = Setting::new(1, 5)?;
    let trace = run_ladder_trace(
        setting,
        &mut rows,
        &mut heads,
        &mut list,
        &calls,
        rt.alloc(),
    )?;
    let [.., turned, sixteen, low, named, slid, fifteen, one] = trace.answers.as_slice() else {
        panic!(rt; "too few answers");
    };
    assert!(rt; matches!(turned, Answer::Done) && matches!(slid, Answer::Done));
    is_counted(&rt, sixteen, (16, 17));
    assert!(rt; matches!(low, Answer::Refused(refusal) if refusal.number() == 10));
    assert!(rt; matches!(named, Answer::Listed(entries) if entries.len() == 1));
    is_counted(&rt, fifteen, (15, 16));
    is_counted(&rt, one, (1, 2));
    Ok(())
}
