//! Many calls for one request.

use crate::coded::Coded;
use crate::draws::Draws;
use crate::request::Request;
use keeper::{Entry, Keeper, Refusal};
use likeness::SoundingKey;
use sounding_traces::verdict_at;
use tally::{Head, Row};
use traces::Stage;

// A put, or a slide where the window slides.
fn put<K: Coded, P: Keeper<K>>(
    stage: &mut Stage<P>,
    rows: &mut [Row<K>],
    heads: &mut [Head],
    key: K,
) -> Result<(), Refusal> {
    match stage {
        Stage::Keeper(keeper) => keeper.put(rows, heads, key),
        Stage::Filling(window) => window.put(rows, heads, key),
        Stage::Sliding(window) => window.slide(rows, heads, key),
    }
}

fn count<K: Coded, P: Keeper<K>>(
    stage: &Stage<P>,
    rows: &[Row<K>],
    heads: &[Head],
    key: &K,
) -> Result<(u32, u32), Refusal> {
    match stage {
        Stage::Keeper(keeper) => keeper.count(rows, heads, key),
        Stage::Filling(window) => window.count(rows, heads, key),
        Stage::Sliding(window) => window.count(rows, heads, key),
    }
}

fn entries<K: Coded, P: Keeper<K>>(
    stage: &Stage<P>,
    rows: &[Row<K>],
    heads: &[Head],
    list: &mut [Entry<K>],
    threshold: u32,
) -> Result<usize, Refusal> {
    match stage {
        Stage::Keeper(keeper) => keeper.list(rows, heads, threshold, list),
        Stage::Filling(window) => window.list(rows, heads, threshold, list),
        Stage::Sliding(window) => window.list(rows, heads, threshold, list),
    }
}

fn drop_oldest<P: Keeper<SoundingKey>>(stage: &mut Stage<P>) -> bool {
    match stage {
        Stage::Keeper(keeper) => <P as Keeper<SoundingKey>>::drop_oldest(keeper).is_ok(),
        Stage::Filling(_) | Stage::Sliding(_) => false,
    }
}

fn sum_of(bracket: (u32, u32)) -> u64 {
    let (floor, ceiling) = bracket;
    floor as u64 + ceiling as u64
}

// What the entries of a list add to the sum.
fn listed<K: Coded, P: Keeper<K>>(
    stage: &Stage<P>,
    rows: &[Row<K>],
    heads: &[Head],
    list: &mut [Entry<K>],
    threshold: u32,
) -> u64 {
    let mut sum = 0u64;
    if let Ok(named) = entries(stage, rows, heads, list, threshold) {
        for entry in list.iter().take(named) {
            let bracket = (entry.floor, entry.ceiling);
            sum = sum.wrapping_add(sum_of(bracket)).wrapping_add(1);
        }
    }
    sum
}

// What a verdict adds to the sum.
fn judged<K: Coded, P: Keeper<SoundingKey>>(
    stage: &Stage<P>,
    rows: &[Row<K>],
    heads: &[Head],
    key: &K,
    class: u8,
) -> u64 {
    let Some(soundings) = K::soundings(rows) else {
        return 0;
    };
    let [first, second, ..] = key.spelling();
    match verdict_at(stage, soundings, heads, [first, second], class) {
        Ok(judgement) => judgement.floor.wrapping_add(judgement.ceiling),
        Err(_) => 0,
    }
}

/// A call that is made many times.
#[derive(Clone, Copy)]
enum Often {
    Put,
    Drop,
    Count,
    List,
    Verdict,
}

impl Often {
    // The call that a letter names, if it names one.
    fn named(letter: u8) -> Option<Often> {
        match letter {
            b'P' => Some(Often::Put),
            b'D' => Some(Often::Drop),
            b'C' => Some(Often::Count),
            b'L' => Some(Often::List),
            b'V' => Some(Often::Verdict),
            _ => None,
        }
    }
}

/// The sum of what a request's many calls answer, if there are such calls.
pub(crate) fn repeat<K: Coded, P: Keeper<K> + Keeper<SoundingKey>>(
    stage: &mut Stage<P>,
    rows: &mut [Row<K>],
    heads: &mut [Head],
    list: &mut [Entry<K>],
    draws: &mut Draws,
    request: &Request,
) -> Option<u64> {
    let call = Often::named(request.what)?;
    let keys = request.key_number();
    let class = request.small % 6 + 1;
    let mut sum = 0u64;
    for _ in 0..request.number {
        let added = match call {
            Often::Put => put(stage, rows, heads, draws.key_among(keys)).is_ok() as u64,
            Often::Drop => drop_oldest(stage) as u64,
            Often::Count => count(stage, rows, heads, &draws.key_among(keys)).map_or(0, sum_of),
            Often::List => listed(stage, rows, heads, list, keys),
            Often::Verdict => judged(stage, rows, heads, &draws.key_among::<K>(keys), class),
        };
        sum = sum.wrapping_add(added);
    }
    Some(sum)
}
