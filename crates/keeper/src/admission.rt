//! Whether a call is refused: what every keeper checks before it does anything.

ghost use Rattle.std.specs.Prelude.{◌≡◌, Ok};
ghost use Rattle.keeper.specs.Tables.{needed};
ghost use Rattle.keeper.specs.Refusals.{count_answer, drop_answer, put_answer, question_answer};

use crate::keeping::Record;
use crate::lengths::Lengths;
use crate::refusal::Refusal;

// The most puts that a keeper accepts: 2^30.
const MOST_PUTS: u32 = 1 << 30;

/// Whether a call is refused for the tables that are lent. A count is refused for nothing else.
pub fn admit_tables<P: Record>(keeper: &P, lent: Lengths) -> Result<(), Refusal>
    ensures { result ≡ count_answer (needed P.Record.figures P.Record.need keeper.now) lent tt }
{
    if lent.is_short_of(keeper.needs()) {
        return Err(Refusal::ShortTable);
    }
    Ok(())
}

/// Whether a put is refused, with the tables that are lent.
pub fn admit_put<P: Record>(keeper: &P, lent: Lengths) -> Result<(), Refusal>
    ensures { result ≡ put_answer (needed P.Record.figures P.Record.need keeper.now) lent (P.Record.figures keeper.now) }
{
    admit_tables(keeper, lent)?;
    if keeper.puts() >= MOST_PUTS {
        return Err(Refusal::Spent);
    }
    if keeper.size() >= 1 << keeper.setting().span() {
        return Err(Refusal::Full);
    }
    Ok(())
}

/// Whether a drop is refused.
pub fn admit_drop<P: Record>(keeper: &P) -> Result<(), Refusal>
    ensures { result ≡ drop_answer (P.Record.figures keeper.now) }
{
    if keeper.size() == 0 {
        return Err(Refusal::Vacant);
    }
    Ok(())
}

/// Whether a list at a threshold is refused, with the tables that are lent; all but a list that is too short.
pub fn admit_list<P: Record>(keeper: &P, lent: Lengths, threshold: u32) -> Result<(), Refusal>
    ensures { result ≡ question_answer (needed P.Record.figures P.Record.need keeper.now) lent (P.Record.figures keeper.now) threshold
        (Ok tt) }
{
    admit_tables(keeper, lent)?;
    let reach = (threshold as u64) << keeper.setting().accuracy();
    if threshold == 0 || reach < keeper.size() as u64 {
        return Err(Refusal::Threshold);
    }
    Ok(())
}
