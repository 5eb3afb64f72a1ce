//! The run of a trace of soundings on a ladder.

ghost use Rattle.std.specs.Prelude.{IfOk};
ghost use Rattle.likeness.specs.Agree.{same_sounding};
ghost use Rattle.keeper.specs.Tables.{lengths};
ghost use Rattle.ladder.specs.Ladders.{bracket, listing, need_of};
ghost use Rattle.ladder.specs.Truth.{HoldsWindow};
ghost use Rattle.sounding_traces.specs.Traces.{SoundingRuns};
ghost use Rattle.ladder_traces.specs.Soundings.{SoundingRunsExactly};

use keeper::Entry;
use ladder::Ladder;
use likeness::SoundingKey;
use settings::Setting;
use sounding_traces::{SoundingCall, SoundingTrace, run_sounding_trace};
use std::alloc::{AllocError, Global};
use tally::{Head, Row};

/// Makes a ladder of soundings and performs the calls, verdicts among them. All that `run_ladder_trace` promises holds here too; and
/// each verdict is the one that the rule takes from the tallies of the blocks that cover the window then.
///
/// The answers are kept on the heap, and want of memory is the one error.
pub fn run_sounding_ladder_trace(
    setting: Setting,
    rows: &mut [Row<SoundingKey>],
    heads: &mut [Head],
    list: &mut [Entry<SoundingKey>],
    calls: &[SoundingCall],
    heap: Global,
) -> Result<SoundingTrace<Ladder>, AllocError>
    ensures runs { IfOk result (λ trace. SoundingRuns (λ s. s) (HoldsWindow same_sounding) need_of (bracket same_sounding) (listing same_sounding) setting.accuracy setting.span
        calls.now rows.old heads.old list.old trace rows.new heads.new list.new) }
    ensures exactly { IfOk result (λ trace. SoundingRunsExactly setting.accuracy setting.span calls.now (lengths rows.old heads.old) trace rows.new heads.new) }
{
    run_sounding_trace(setting, rows, heads, list, calls, heap)
}
