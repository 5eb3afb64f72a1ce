//! Reads lines from standard input, and prints which of them are no depth readings, and for which classes of ferry the berth has water by
//! the latest of the others.
#![tactic(auto)]

use soundings::Soundings;
use std::io;
use watch::run;

fn main(rt: HostRuntime) -> io::Result<()> {
    run::<Soundings, _, _>(&mut rt.stdin(), &mut rt.stdout(), rt.alloc())
}
