//! Reads lines from standard input, and prints which of them are no sentences, and which kinds of sentence were many at last.
#![tactic(auto)]

use kinds::Kinds;
use std::io;
use watch::run;

fn main(rt: HostRuntime) -> io::Result<()> {
    run::<Kinds, _, _>(&mut rt.stdin(), &mut rt.stdout(), rt.alloc())
}
