//! Whole traces.

ghost use Rattle.std.specs.Prelude.{◌≡◌, IfOk, length, take};
ghost use Rattle.traces.specs.Model.{told_as};
ghost use Rattle.traces.specs.Steps.{Fits, StepsTelling};
ghost use Rattle.traces.specs.Traces.{Runs};

use crate::calls::{Answer, Call};
use crate::stage::{Stage, Trace};
use keeper::{Entry, Keeper, Record};
use likeness::Likeness;
use settings::Setting;
use std::alloc::{AllocError, Global};
use tally::{Head, Row};

// The answer with the entries that a list has just written. They are copied, since the next list is written over them.
fn with_entries<K: Likeness>(
    answer: Answer<usize>,
    list: &[Entry<K>],
    heap: Global,
) -> Result<Answer<Vec<Entry<K>>>, AllocError>
    requires { Fits (length list.now) answer }
    ensures { IfOk result (λ told. told_as (λ entries. entries.items) told ≡ told_as (λ count. take count list.now) answer) }
{
    Ok(match answer {
        Answer::Done => Answer::Done,
        Answer::Refused(refusal) => Answer::Refused(refusal),
        Answer::Counted { floor, ceiling } => Answer::Counted { floor, ceiling },
        Answer::Listed(count) => {
            let mut entries = Vec::new(heap);
            entries.extend_from_slice(&list[..count])?;
            Answer::Listed(entries)
        }
        Answer::NotInTrace => Answer::NotInTrace,
    })
}

impl<P: Record> Stage<P> {
    /// Performs one call as `step` does, and tells a list by its entries, which are kept on the heap.
    pub fn perform<K: Likeness>(
        self,
        rows: &mut [Row<K>],
        heads: &mut [Head],
        list: &mut [Entry<K>],
        call: Call<K>,
        heap: Global,
    ) -> Result<(Stage<P>, Answer<Vec<Entry<K>>>), AllocError>
    where
        P: Keeper<K> + Drop,
        ensures { IfOk result (λ next. StepsTelling P.Record.figures P.Keeper.holds P.Record.need K.Likeness.alike P.Keeper.bracket P.Keeper.listing self rows.old heads.old list.old call
            next.0 (told_as (λ entries. entries.items) next.1) rows.new heads.new list.new) }
    {
        let (next, answer) = self.step(rows, heads, list, call);
        let told = with_entries(answer, list, heap)?;
        Ok((next, told))
    }
}

/// Makes a keeper and performs the calls, each with the tables that the one before it left. Whatever the tables hold, however
/// long they are and whichever calls come, each answer is the one that the reference model demands.
///
/// The answers are kept on the heap, and want of memory is the one error.
pub fn run_trace<K: Likeness, P: Keeper<K> + Drop>(
    setting: Setting,
    rows: &mut [Row<K>],
    heads: &mut [Head],
    list: &mut [Entry<K>],
    calls: &[Call<K>],
    heap: Global,
) -> Result<Trace<K, P>, AllocError>
    ensures { IfOk result (λ trace. Runs P.Record.figures P.Keeper.holds P.Record.need K.Likeness.alike P.Keeper.bracket P.Keeper.listing setting.accuracy setting.span
        calls.now rows.old heads.old list.old trace rows.new heads.new list.new) }
{
    let mut stage = Stage::Keeper(<P as Keeper<K>>::fresh(setting));
    let mut answers = Vec::new(heap);
    for call in calls {
        let (next, answer) = stage.perform(rows, heads, list, *call, heap)?;
        stage = next;
        answers.push(answer)?;
    }
    Ok(Trace { stage, answers })
}
