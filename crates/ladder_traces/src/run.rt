//! The run of a trace on a ladder.

ghost use Rattle.std.specs.Prelude.{IfOk};
ghost use Rattle.keeper.specs.Tables.{lengths};
ghost use Rattle.ladder.specs.Ladders.{bracket, listing, need_of};
ghost use Rattle.ladder.specs.Truth.{HoldsWindow};
ghost use Rattle.traces.specs.Traces.{Runs};
ghost use Rattle.ladder_traces.specs.Exact.{RunsExactly};

use keeper::Entry;
use ladder::Ladder;
use likeness::Likeness;
use settings::Setting;
use std::alloc::{AllocError, Global};
use tally::{Head, Row};
use traces::{Call, Trace, run_trace};

/// Makes a ladder and performs the calls, each with the tables that the one before it left. Whatever the tables hold, however long
/// they are and whichever calls come, each answer is the one that the reference model demands; each count and each list is the one that
/// the tallies of the blocks give that cover the window then; and at the end each slot that a block has begun holds the tally of its
/// newest.
///
/// The answers are kept on the heap, and want of memory is the one error.
pub fn run_ladder_trace<K: Likeness>(
    setting: Setting,
    rows: &mut [Row<K>],
    heads: &mut [Head],
    list: &mut [Entry<K>],
    calls: &[Call<K>],
    heap: Global,
) -> Result<Trace<K, Ladder>, AllocError>
    ensures runs { IfOk result (λ trace. Runs (λ s. s) (HoldsWindow K.alike) need_of K.alike (bracket K.alike) (listing K.alike) setting.accuracy setting.span
        calls.now rows.old heads.old list.old trace rows.new heads.new list.new) }
    ensures exactly { IfOk result (λ trace. RunsExactly K.alike setting.accuracy setting.span calls.now (lengths rows.old heads.old) trace rows.new heads.new) }
{
    run_trace(setting, rows, heads, list, calls, heap)
}
