use bands::band_of;
use keeper::{Entry, Keeper};
use ladder::Ladder;
use ladder_traces::run_sounding_ladder_trace;
use likeness::SoundingKey;
use ring::Ring;
use settings::Setting;
use sounding_traces::{SoundingAnswer, SoundingCall, run_sounding_trace};
use std::alloc::Global;
use std::process::Abort;
use std::test::Fail;
use tally::{EMPTY, Row};
use traces::Call;
use verdicts::{Judgement, VerdictRefusal};

// What a ladder of accuracy 1 and span 5 needs; a ring needs less.
const ROWS: usize = 1038;

const HEADS: usize = 72;

fn reading(sounder: [u8; 2], clearance: i32) -> SoundingKey {
    SoundingKey {
        sounder,
        band: band_of(clearance),
    }
}

fn put(sounder: [u8; 2], clearance: i32) -> SoundingCall {
    SoundingCall::Plain(Call::Put(reading(sounder, clearance)))
}

fn ask(class: u8) -> SoundingCall {
    SoundingCall::Ask {
        sounder: *b"SD",
        class,
    }
}

// What is said where floors and ceilings are equal, as a ring's always are, and a ladder's in windows of up to 16.
fn says(size: u32, sum: u64) -> Result<Judgement, VerdictRefusal> {
    Ok(Judgement::of(size, sum, sum))
}

// Whether these are the verdicts among the answers, in their order.
fn are_verdicts(
    rt: &impl Abort,
    answers: &[SoundingAnswer<Vec<Entry<SoundingKey>>>],
    wanted: &[Result<Judgement, VerdictRefusal>],
) {
    let mut named = 0;
    for answer in answers {
        if let SoundingAnswer::Judged(judged) = answer {
            assert!(rt; named < wanted.len());
            assert_eq!(rt; *judged, wanted[named]);
            named += 1;
        }
    }
    assert_eq!(rt; named, wanted.len());
}

// A window of four that fills and slides, with verdicts in each state; in between a reading of another sounder.
const CALLS: usize = 17;

fn calls() -> [SoundingCall; CALLS] {
    [
        ask(1),
        SoundingCall::Plain(Call::Fix(4)),
        put(*b"SD", 40),
        put(*b"SD", 90),
        put(*b"II", 40),
        ask(1),
        ask(6),
        ask(0),
        ask(7),
        put(*b"SD", 90),
        SoundingCall::Plain(Call::Turn),
        ask(1),
        SoundingCall::Plain(Call::Slide(reading(*b"SD", 100))),
        ask(1),
        ask(5),
        ask(6),
        SoundingCall::Plain(Call::Count(reading(*b"SD", 90))),
    ]
}

fn wanted() -> [Result<Judgement, VerdictRefusal>; 9] {
    [
        says(0, 0),
        says(3, 1),
        says(3, 2),
        Err(VerdictRefusal::Class),
        Err(VerdictRefusal::Class),
        says(4, 1),
        says(4, 0),
        says(4, 0),
        says(4, 2),
    ]
}

// Performs calls on a keeper, in tables that were used before.
fn on<P: Keeper<SoundingKey> + Drop>(
    rt: &impl Abort,
    heap: Global,
    calls: &[SoundingCall],
    wanted: &[Result<Judgement, VerdictRefusal>],
) -> Result<(), Fail> {
    let row = Row {
        key: reading(*b"SD", 40),
        count: 9,
    };
    let mut rows = vec![in heap; row; ROWS]?;
    let mut heads = vec![in heap; EMPTY; HEADS]?;
    let setting = Setting::new(1, 5)?;
    let trace = run_sounding_trace::<P>(setting, &mut rows, &mut heads, &mut [], calls, heap)?;
    are_verdicts(rt, trace.answers.as_slice(), wanted);
    Ok(())
}

#[test]
fn verdicts_in_every_state(rt: HostRuntime) -> Result<(), Fail> {
    on::<Ring>(&rt, rt.alloc(), &calls(), &wanted())?;
    on::<Ladder>(&rt, rt.alloc(), &calls(), &wanted())
}

// Seventeen readings, of which four were too shallow for every class: just less than a quarter. Of the seventeenth the ladder cannot say
// what it was, so it is unsure where the ring is not. The other sounder's are none.
#[test]
fn a_ladder_that_is_unsure(rt: HostRuntime) -> Result<(), Fail> {
    let mut calls = vec![in rt.alloc(); put(*b"SD", 100); 17]?;
    calls[3] = put(*b"SD", 45);
    calls[5] = put(*b"SD", 40);
    calls[7] = put(*b"SD", 0);
    calls[11] = put(*b"SD", -60);
    calls.push(ask(1))?;
    calls.push(SoundingCall::Ask {
        sounder: *b"II",
        class: 1,
    })?;
    on::<Ring>(&rt, rt.alloc(), &calls, &[says(17, 4), says(17, 0)])?;
    let between = Ok(Judgement::of(17, 4, 5));
    let silent = Ok(Judgement::of(17, 0, 1));
    on::<Ladder>(&rt, rt.alloc(), &calls, &[between, silent])
}

// A table that is too short is told before a class that does not exist.
#[test]
fn verdicts_without_tables(rt: HostRuntime) -> Result<(), Fail> {
    let setting = Setting::new(1, 5)?;
    let asked = [ask(1), ask(7)];
    let trace = run_sounding_ladder_trace(setting, &mut [], &mut [], &mut [], &asked, rt.alloc())?;
    let short = Err(VerdictRefusal::Keeper(keeper::Refusal::ShortTable));
    are_verdicts(&rt, trace.answers.as_slice(), &[short, short]);
    Ok(())
}
