//! One call of a trace, in each of its states.

ghost use Rattle.std.specs.Prelude.{◌≡◌};
ghost use Rattle.traces.specs.Steps.{counted_by, done_by, listed_by, Steps};

use crate::calls::{Answer, Call};
use crate::stage::Stage;
use keeper::{Entry, Keeper, Record, Refusal};
use likeness::Likeness;
use tally::{Head, Row};
use windows::{Filling, Sliding};

// What is told of a call that only changes the window.
fn done(outcome: Result<(), Refusal>) -> Answer<usize>
    ensures { result ≡ done_by outcome }
{
    match outcome {
        Ok(()) => Answer::Done,
        Err(refusal) => Answer::Refused(refusal.into()),
    }
}

// What is told of a count.
fn counted(outcome: Result<(u32, u32), Refusal>) -> Answer<usize>
    ensures { result ≡ counted_by outcome }
{
    match outcome {
        Ok((floor, ceiling)) => Answer::Counted { floor, ceiling },
        Err(refusal) => Answer::Refused(refusal.into()),
    }
}

// What is told of a list.
fn listed(outcome: Result<usize, Refusal>) -> Answer<usize>
    ensures { result ≡ listed_by outcome }
{
    match outcome {
        Ok(count) => Answer::Listed(count),
        Err(refusal) => Answer::Refused(refusal.into()),
    }
}

// A call to a keeper.
fn at_keeper<K: Likeness, P: Keeper<K>>(
    mut keeper: P,
    rows: &mut [Row<K>],
    heads: &mut [Head],
    list: &mut [Entry<K>],
    call: Call<K>,
) -> (Stage<P>, Answer<usize>)
    ensures { Steps P.Record.figures P.Keeper.holds P.Record.need K.Likeness.alike P.Keeper.bracket P.Keeper.listing (Stage.Keeper keeper) rows.old heads.old list.old call result.0 result.1 rows.new heads.new list.new }
{
    match call {
        Call::Fix(goal) => match Filling::new(keeper, goal) {
            Ok(filling) => (Stage::Filling(filling), Answer::Done),
            Err(back) => (Stage::Keeper(back.value), Answer::Refused(back.refusal)),
        },
        Call::Put(key) => {
            let outcome = keeper.put(rows, heads, key);
            (Stage::Keeper(keeper), done(outcome))
        }
        Call::DropOldest => {
            let outcome = keeper.drop_oldest();
            (Stage::Keeper(keeper), done(outcome))
        }
        Call::Count(key) => {
            let outcome = keeper.count(rows, heads, &key);
            (Stage::Keeper(keeper), counted(outcome))
        }
        Call::List(threshold) => {
            let outcome = keeper.list(rows, heads, threshold, list);
            (Stage::Keeper(keeper), listed(outcome))
        }
        Call::Turn | Call::Slide(_) => (Stage::Keeper(keeper), Answer::NotInTrace),
    }
}

// A call to a window that is being filled.
fn at_filling<K: Likeness, P: Keeper<K>>(
    mut window: Filling<P>,
    rows: &mut [Row<K>],
    heads: &mut [Head],
    list: &mut [Entry<K>],
    call: Call<K>,
) -> (Stage<P>, Answer<usize>)
    ensures { Steps P.Record.figures P.Keeper.holds P.Record.need K.Likeness.alike P.Keeper.bracket P.Keeper.listing (Stage.Filling window) rows.old heads.old list.old call result.0 result.1 rows.new heads.new list.new }
{
    match call {
        Call::Put(key) => {
            let outcome = window.put(rows, heads, key);
            (Stage::Filling(window), done(outcome))
        }
        Call::Turn => match window.turn() {
            Ok(sliding) => (Stage::Sliding(sliding), Answer::Done),
            Err(back) => (Stage::Filling(back.value), Answer::Refused(back.refusal)),
        },
        Call::Count(key) => {
            let outcome = window.count(rows, heads, &key);
            (Stage::Filling(window), counted(outcome))
        }
        Call::List(threshold) => {
            let outcome = window.list(rows, heads, threshold, list);
            (Stage::Filling(window), listed(outcome))
        }
        Call::Fix(_) | Call::DropOldest | Call::Slide(_) => {
            (Stage::Filling(window), Answer::NotInTrace)
        }
    }
}

// A call to a window that slides.
fn at_sliding<K: Likeness, P: Keeper<K>>(
    mut window: Sliding<P>,
    rows: &mut [Row<K>],
    heads: &mut [Head],
    list: &mut [Entry<K>],
    call: Call<K>,
) -> (Stage<P>, Answer<usize>)
    ensures { Steps P.Record.figures P.Keeper.holds P.Record.need K.Likeness.alike P.Keeper.bracket P.Keeper.listing (Stage.Sliding window) rows.old heads.old list.old call result.0 result.1 rows.new heads.new list.new }
{
    match call {
        Call::Slide(key) => {
            let outcome = window.slide(rows, heads, key);
            (Stage::Sliding(window), done(outcome))
        }
        Call::Count(key) => {
            let outcome = window.count(rows, heads, &key);
            (Stage::Sliding(window), counted(outcome))
        }
        Call::List(threshold) => {
            let outcome = window.list(rows, heads, threshold, list);
            (Stage::Sliding(window), listed(outcome))
        }
        Call::Fix(_) | Call::Put(_) | Call::DropOldest | Call::Turn => {
            (Stage::Sliding(window), Answer::NotInTrace)
        }
    }
}

impl<P: Record> Stage<P> {
    /// Performs one call, in whatever state the trace stands. The answer is right for every window that record and tables are true to,
    /// and then they are true to what the call makes of it. A call that is refused or that the state does not have changes nothing.
    pub fn step<K: Likeness>(
        self,
        rows: &mut [Row<K>],
        heads: &mut [Head],
        list: &mut [Entry<K>],
        call: Call<K>,
    ) -> (Stage<P>, Answer<usize>)
    where
        P: Keeper<K>,
        ensures { Steps P.Record.figures P.Keeper.holds P.Record.need K.Likeness.alike P.Keeper.bracket P.Keeper.listing self rows.old heads.old list.old call result.0 result.1 rows.new heads.new list.new }
    {
        match self {
            Stage::Keeper(keeper) => at_keeper(keeper, rows, heads, list, call),
            Stage::Filling(window) => at_filling(window, rows, heads, list, call),
            Stage::Sliding(window) => at_sliding(window, rows, heads, list, call),
        }
    }
}
