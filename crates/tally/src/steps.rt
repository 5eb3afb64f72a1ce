//! One key comes to a slot.

ghost use Rattle.std.specs.Prelude.{◌≡◌, ◌≤◌, length};
ghost use Rattle.tally.specs.Cases.{Oddities};
ghost use Rattle.tally.specs.Laws.{StillTells};
ghost use Rattle.tally.specs.Slots.{head_of, over, stepped};
ghost use Rattle.tally.specs.Steps.{fallen};

use crate::rows::{Head, Row};
use crate::slot::Slot;
use likeness::Likeness;

// Takes one off every count and gives up the rows that are left with 0. The others move together at the front; how
// many they are is the answer, and what lies behind them stays as it was. Places are counted, since one pass reads and
// writes the same lent rows: there is no memory for others.
fn settle<K: Copy>(rows: &mut [Row<K>]) -> usize
    ensures stay { result ≡ length (fallen rows.old) }
    ensures rows { rows.new ≡ over (fallen rows.old) rows.old }
    ensures bound { result ≤ length rows.old }
{
    let mut stay = 0;
    for i in 0..rows.len() {
        if let Some(row) = rows[i].after_fall() {
            rows[stay] = row;
            stay += 1;
        }
    }
    stay
}

// What `step` does. It stands apart, so that the laws on `step` are owed at one return and not at three.
#[tactic(auto, using(crate::proofs::Changes::length_risen, crate::proofs::Over::drop_part, crate::proofs::Over::over_push, std::proofs::lemmas::Grind::common_steps))]
fn take_key<K: Likeness>(rows: &mut [Row<K>], head: Head, key: K) -> Head
    ensures head { result ≡ head_of (stepped K.alike rows.old head key) }
    ensures rows { rows.new ≡ over (stepped K.alike rows.old head key).rows rows.old }
{
    let slot = Slot { rows, head };
    let room = slot.room();
    let used = slot.in_use();
    let came = Row { key, count: 1 };
    match slot.find(&key) {
        Some(place) => {
            rows[place] = rows[place].joined(came);
            Head {
                used: used as u32,
                ..head
            }
        }
        None if used < room => {
            rows[used] = came;
            Head {
                used: used as u32 + 1,
                ..head
            }
        }
        None => {
            let stay = settle(&mut rows[..used]);
            Head {
                used: stay as u32,
                lost: head.lost.saturating_add(1),
            }
        }
    }
}

/// One key comes to the tally in a slot. Answers the slot's new head.
///
/// The first row in use that is alike to the key counts one more. Where none is, the key takes the next free row; where
/// no row is free, one is taken off every count, rows left with 0 are given up, and the key is written nowhere.
/// A tally that tells of a list of keys tells of the list with this key behind it, up to 4,294,967,295 keys.
// Rows and head are two parameters here, since a caller may keep its heads in a table of their own; `Tally` has them as one.
pub fn step<K: Likeness>(rows: &mut [Row<K>], head: Head, key: K) -> Head
    ensures head { result ≡ head_of (stepped K.alike rows.old head key) }
    ensures rows { rows.new ≡ over (stepped K.alike rows.old head key).rows rows.old }
    ensures tells { StillTells K.alike key rows.old head rows.new result }
    ensures odd { Oddities }
{
    take_key(rows, head, key)
}
