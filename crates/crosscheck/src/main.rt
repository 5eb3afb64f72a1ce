//! Runs a ring and a ladder side by side over long traces. The ring counts exactly, so the ladder's brackets have to hold what it
//! counts. Prints how many do not, and how wide they were at most beside what is promised.
#![tactic(auto)]

mod audit;
mod both;
mod counted;
mod counts;
mod draws;
mod entries;
mod findings;
mod gap;
mod lists;
mod mix;
mod score;
mod side;
mod trace;

use draws::Draws;
use findings::Totals;
use mix::Mix;
use settings::Setting;
use std::io::{self, Write};
use trace::Trace;

// Accuracies and spans: coarse and fine, short and long.
const SETTINGS: [(u32, u32); 8] = [
    (1, 4),
    (1, 9),
    (1, 12),
    (3, 6),
    (3, 12),
    (5, 12),
    (6, 9),
    (6, 12),
];

fn main(rt: HostRuntime) -> io::Result<()> {
    let mut out = rt.stdout();
    let mut totals = Totals::none();
    for (accuracy, span) in SETTINGS {
        let Ok(setting) = Setting::new(accuracy, span) else {
            continue;
        };
        for mix in [Mix::Few, Mix::Uneven, Mix::Many] {
            let mut trace = Trace::fresh(setting, Draws::of(mix), rt.alloc())?;
            trace.run();
            let findings = trace.findings();
            let counts = &findings.counts;
            writeln!(out, "accuracy {accuracy}, span {span}, {mix}: {counts}")?;
            totals.add(findings);
        }
    }
    let Totals {
        counts,
        lists,
        calls,
    } = totals;
    writeln!(out, "counts: {counts}")?;
    writeln!(out, "lists: {lists}")?;
    writeln!(out, "puts, drops and lists to be refused: {calls}")?;
    out.flush()
}
