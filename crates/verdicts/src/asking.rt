//! A verdict, from any keeper of soundings.

ghost use Rattle.std.specs.Prelude.{◌≡◌, ◌≤◌, List, length, false, Ok};
ghost use Rattle.likeness.specs.Counts.{truly_short};
ghost use Rattle.likeness.specs.declared.sounding.SoundingKey.{SoundingKey};
ghost use Rattle.keeper.specs.Rules.{TrueTo};
ghost use Rattle.keeper.specs.Tables.{lengths, needed, short};
ghost use Rattle.verdicts.specs.Cases.{AskingCases};
ghost use Rattle.verdicts.specs.Rules.{Judged, Sums};
ghost use Rattle.verdicts.specs.Verdicts.{sums_below};

use crate::judgement::Judgement;
use crate::refusal::VerdictRefusal;
use bands::Band;
use keeper::{Keeper, Lengths, Refusal, admit_tables};
use likeness::SoundingKey;
use tally::{Head, Row};

/// Classes of ferry are numbered from 1 to 6.
pub const FIRST_CLASS: u8 = 1;

/// The last class.
pub const LAST_CLASS: u8 = 6;

// The keeper's brackets of the sounder's keys in the bands below a class, added pairwise.
fn sum_below<P: Keeper<SoundingKey>>(
    keeper: &P,
    rows: &[Row<SoundingKey>],
    heads: &[Head],
    sounder: [u8; 2],
    class: u8,
) -> Result<(u64, u64), Refusal>
    requires there { class ≤ 6 }
    requires lent { short (needed P.Record.figures P.Record.need keeper.now) (lengths rows.now heads.now) ≡ false }
    ensures value { result ≡ Ok (sums_below (P.Keeper.bracket keeper.now rows.now heads.now) sounder class) }
    ensures right { (past window : List SoundingKey) → TrueTo P.Record.figures P.Keeper.holds keeper.now rows.now heads.now past window
        → Sums (P.Record.figures keeper.now).accuracy (length window) (truly_short window sounder class) class (sums_below (P.Keeper.bracket keeper.now rows.now heads.now) sounder class) }
{
    let (mut floors, mut ceilings) = (0, 0);
    for number in 0..class {
        let band = Band::new(number).unwrap();
        let key = SoundingKey { sounder, band };
        let (floor, ceiling) = keeper.count(rows, heads, &key)?;
        floors += u64::from(floor);
        ceilings += u64::from(ceiling);
    }
    Ok((floors, ceilings))
}

/// Whether a ferry of this class can come in: from the keeper's counts of the sounder's keys in the bands that are too shallow for it,
/// beside how many keys the window holds, of all sounders. Refused 4 where a table is too short, else 11 where the class is not from
/// 1 to 6.
///
/// `windows::Filling` and `windows::Sliding` have it as a method.
pub fn verdict<P: Keeper<SoundingKey>>(
    keeper: &P,
    rows: &[Row<SoundingKey>],
    heads: &[Head],
    sounder: [u8; 2],
    class: u8,
) -> Result<Judgement, VerdictRefusal>
    ensures judged { Judged P.Record.figures P.Keeper.holds P.Record.need P.Keeper.bracket keeper.now rows.now heads.now sounder class result }
    ensures worked { AskingCases }
{
    admit_tables(keeper, Lengths::of(rows, heads))?;
    if !(FIRST_CLASS..=LAST_CLASS).contains(&class) {
        return Err(VerdictRefusal::Class);
    }
    let (floors, ceilings) = sum_below(keeper, rows, heads, sounder, class)?;
    Ok(Judgement::of(keeper.size(), floors, ceilings))
}
