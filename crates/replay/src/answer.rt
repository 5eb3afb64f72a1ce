//! What a request is answered.

use crate::coded::Coded;
use crate::draws::Draws;
use crate::repeat::repeat;
use crate::request::Request;
use crate::tables::{Lent, Tables};
use keeper::{Entry, Keeper, Record};
use likeness::SoundingKey;
use sounding_traces::verdict_at;
use std::alloc::AllocError;
use tally::{Head, Row};
use traces::{Answer, Call, Stage};

/// The call of a request, if its op is that of a plain call: one of a keeper or a window that is no verdict.
fn plain_call<K: Coded>(request: &Request) -> Option<Result<Call<K>, ()>> {
    let key = K::spelled(request.key);
    Some(match request.op {
        b'F' => Ok(Call::Fix(request.number)),
        b'P' => key.map(Call::Put).ok_or(()),
        b'D' => Ok(Call::DropOldest),
        b'T' => Ok(Call::Turn),
        b'S' => key.map(Call::Slide).ok_or(()),
        b'C' => key.map(Call::Count).ok_or(()),
        b'L' => Ok(Call::List(request.number)),
        _ => return None,
    })
}

fn print_entry<K: Coded>(entry: &Entry<K>, out: &mut String) -> Result<(), AllocError> {
    write!(out, " ")?;
    for byte in entry.key.spelling() {
        write!(out, "{byte:02x}")?;
    }
    write!(out, " {} {}", entry.floor, entry.ceiling)
}

fn print_answer<K: Coded>(
    answer: Answer<usize>,
    list: &[Entry<K>],
    out: &mut String,
) -> Result<(), AllocError> {
    match answer {
        Answer::Done => writeln!(out, "done"),
        Answer::Refused(refusal) => writeln!(out, "{refusal}"),
        Answer::Counted { floor, ceiling } => writeln!(out, "counted {floor} {ceiling}"),
        Answer::Listed(named) => {
            write!(out, "listed {named}")?;
            for entry in list.iter().take(named) {
                print_entry(entry, out)?;
            }
            writeln!(out)
        }
        Answer::NotInTrace => writeln!(out, "not in trace"),
    }
}

fn print_verdict<K: Coded, P: Keeper<SoundingKey>>(
    stage: &Stage<P>,
    rows: &[Row<K>],
    heads: &[Head],
    request: &Request,
    out: &mut String,
) -> Result<(), AllocError> {
    let Some(soundings) = K::soundings(rows) else {
        return writeln!(out, "no call");
    };
    let [first, second, ..] = request.key;
    match verdict_at(stage, soundings, heads, [first, second], request.small) {
        Ok(judgement) => writeln!(out, "{judgement}"),
        Err(refusal) => writeln!(out, "{refusal}"),
    }
}

fn print_figures<P: Keeper<SoundingKey>>(
    stage: &Stage<P>,
    out: &mut String,
) -> Result<(), AllocError> {
    let (puts, size) = match stage {
        Stage::Keeper(keeper) => (keeper.puts(), keeper.size()),
        Stage::Filling(window) => (window.puts(), window.size()),
        Stage::Sliding(window) => (window.puts(), window.size()),
    };
    writeln!(out, "figures {puts} {size}")
}

// Answers a request that is no plain call, and so leaves the stage's state as it is.
fn answer_other<K: Coded, P: Keeper<K> + Keeper<SoundingKey>>(
    stage: &mut Stage<P>,
    tables: &mut Tables<K>,
    draws: &mut Draws,
    request: &Request,
    out: &mut String,
) -> Result<(), AllocError> {
    match request.op {
        b'V' => {
            let Lent { rows, heads, .. } = tables.lent();
            return print_verdict(stage, rows, heads, request, out);
        }
        b'R' => tables.most_rows = request.number,
        b'H' => tables.most_heads = request.number,
        b'N' => tables.most_places = request.number,
        b'G' => return print_figures(stage, out),
        b'W' => return writeln!(out, "tables {}", tables.digest()),
        b'I' => tables.spoil(request.key_number(), request.number),
        b'X' => {
            let Lent { rows, heads, list } = tables.lent();
            return match repeat(stage, rows, heads, list, draws, request) {
                Some(sum) => writeln!(out, "sum {sum}"),
                None => writeln!(out, "no call"),
            };
        }
        _ => return writeln!(out, "no call"),
    }
    writeln!(out, "done")
}

/// Performs one request, and appends its answer.
pub(crate) fn answer<K: Coded, P: Keeper<K> + Keeper<SoundingKey> + Drop>(
    mut stage: Stage<P>,
    tables: &mut Tables<K>,
    draws: &mut Draws,
    request: &Request,
    out: &mut String,
) -> Result<Stage<P>, AllocError> {
    match plain_call(request) {
        Some(Ok(call)) => {
            let Lent { rows, heads, list } = tables.lent();
            let (next, answer) = stage.step(rows, heads, list, call);
            print_answer(answer, list, out)?;
            Ok(next)
        }
        Some(Err(())) => {
            writeln!(out, "no key")?;
            Ok(stage)
        }
        None => {
            answer_other(&mut stage, tables, draws, request, out)?;
            Ok(stage)
        }
    }
}
