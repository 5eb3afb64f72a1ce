//! Whole traces on soundings.

ghost use Rattle.std.specs.Prelude.{IfOk};
ghost use Rattle.sounding_traces.specs.Model.{told_as};
ghost use Rattle.sounding_traces.specs.Traces.{Performed, SoundingRuns};

use crate::asking::verdict_at;
use crate::calls::{SoundingAnswer, SoundingCall};
use crate::trace::SoundingTrace;
use keeper::{Entry, Keeper};
use likeness::SoundingKey;
use settings::Setting;
use std::alloc::{AllocError, Global};
use tally::{Head, Row};
use traces::Stage;

// One call, with the entries that it listed.
fn perform<P: Keeper<SoundingKey> + Drop>(
    stage: Stage<P>,
    rows: &mut [Row<SoundingKey>],
    heads: &mut [Head],
    list: &mut [Entry<SoundingKey>],
    call: SoundingCall,
    heap: Global,
) -> Result<(Stage<P>, SoundingAnswer<Vec<Entry<SoundingKey>>>), AllocError>
    ensures { IfOk result (λ next. Performed P.Record.figures P.Keeper.holds P.Record.need P.Keeper.bracket P.Keeper.listing
        (record { stage = stage; rows = rows.old; heads = heads.old; list = list.old }) call (told_as (λ entries. entries.items) next.1)
        (record { stage = next.0; rows = rows.new; heads = heads.new; list = list.new })) }
{
    match call {
        SoundingCall::Plain(call) => {
            let (next, answer) = stage.perform(rows, heads, list, call, heap)?;
            Ok((next, SoundingAnswer::Answered(answer)))
        }
        SoundingCall::Ask { sounder, class } => {
            let judged = verdict_at(&stage, rows, heads, sounder, class);
            Ok((stage, SoundingAnswer::Judged(judged)))
        }
    }
}

/// Makes a keeper of soundings and performs the calls, each with the tables that the one before it left. Whatever the tables hold,
/// however long they are and whichever calls come, each answer is the one that the reference model demands: counts, lists and
/// verdicts are right for the window as it is then, and all refusals are the numbered ones under their conditions.
///
/// The answers are kept on the heap, and want of memory is the one error.
pub fn run_sounding_trace<P: Keeper<SoundingKey> + Drop>(
    setting: Setting,
    rows: &mut [Row<SoundingKey>],
    heads: &mut [Head],
    list: &mut [Entry<SoundingKey>],
    calls: &[SoundingCall],
    heap: Global,
) -> Result<SoundingTrace<P>, AllocError>
    ensures { IfOk result (λ trace. SoundingRuns P.Record.figures P.Keeper.holds P.Record.need P.Keeper.bracket P.Keeper.listing setting.accuracy setting.span
        calls.now rows.old heads.old list.old trace rows.new heads.new list.new) }
{
    let mut stage = Stage::Keeper(<P as Keeper<SoundingKey>>::fresh(setting));
    let mut answers = Vec::new(heap);
    for call in calls {
        let (next, answer) = perform(stage, rows, heads, list, *call, heap)?;
        stage = next;
        answers.push(answer)?;
    }
    Ok(SoundingTrace { stage, answers })
}
