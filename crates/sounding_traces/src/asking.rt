//! A verdict in the middle of a trace.

ghost use Rattle.verdicts.specs.Rules.{Judged};
ghost use Rattle.traces.specs.Stages.{keeper_of};

use keeper::Keeper;
use likeness::SoundingKey;
use tally::{Head, Row};
use traces::Stage;
use verdicts::{Judgement, VerdictRefusal, verdict};

/// The verdict of the keeper, in whatever state the trace stands. A window over it answers as the keeper does alone.
pub fn verdict_at<P: Keeper<SoundingKey>>(
    stage: &Stage<P>,
    rows: &[Row<SoundingKey>],
    heads: &[Head],
    sounder: [u8; 2],
    class: u8,
) -> Result<Judgement, VerdictRefusal>
    ensures { Judged P.Record.figures P.Keeper.holds P.Record.need P.Keeper.bracket (keeper_of stage.now) rows.now heads.now sounder class result }
{
    match stage {
        Stage::Keeper(keeper) => verdict(keeper, rows, heads, sounder, class),
        Stage::Filling(window) => window.verdict(rows, heads, sounder, class),
        Stage::Sliding(window) => window.verdict(rows, heads, sounder, class),
    }
}
