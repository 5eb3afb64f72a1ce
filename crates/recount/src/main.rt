//! Lays out the slots of every setting by counting them one after the other, covers many windows step by step, fills slots with
//! blocks as they come, and compares all that with what the library works out.
#![tactic(auto)]

mod compared;
mod covers;
mod draws;
mod owners;
mod places;
mod plan;

use compared::Compared;
use draws::Draws;
use layout::Layout;
use plan::Plan;
use settings::Setting;
use std::io::{self, Write};

fn main(rt: HostRuntime) -> io::Result<()> {
    let mut places = Compared::none();
    let mut covers = Compared::none();
    let mut owners = Compared::none();
    let mut draws = Draws::seeded(2_463_534_242);
    for accuracy in 1..7 {
        for span in 4..21 {
            let Ok(setting) = Setting::new(accuracy, span) else {
                continue;
            };
            let layout = Layout::of(setting);
            let plan = Plan::of(accuracy, span, rt.alloc())?;
            places::compare(&layout, &plan, &mut draws, &mut places);
            covers::compare(&layout, &plan, &mut draws, &mut covers);
            owners::compare(&layout, &plan, &mut owners, rt.alloc())?;
        }
    }
    let mut out = rt.stdout();
    writeln!(out, "places: {places}")?;
    writeln!(out, "covers: {covers}")?;
    writeln!(out, "owners: {owners}")?;
    out.flush()
}
