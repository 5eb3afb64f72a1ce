//! Performs the calls that standard input spells on a keeper, and prints what each answers: so that another program can drive a keeper.
//! docs/REPLAY.md says how calls are spelled.
#![tactic(auto)]

mod answer;
mod coded;
mod digest;
mod draws;
mod repeat;
mod request;
mod serve;
mod tables;

use coded::Coded;
use keeper::Keeper;
use ladder::Ladder;
use likeness::{AddressKey, SoundingKey};
use ring::Ring;
use serve::serve;
use settings::Setting;
use std::alloc::Global;
use std::io::{self, ErrorKind, Read, Write};

// The keeper, the kind of key, the accuracy and the span.
type Header = [u8; 4];

// Serves a ring or a ladder, as the header's first byte says.
fn serve_keeper<K: Coded, R: Read, W: Write>(
    header: Header,
    input: &mut R,
    output: &mut W,
    heap: Global,
) -> io::Result<()>
where
    Ring: Keeper<K>,
    Ladder: Keeper<K>,
{
    let [keeper, _, accuracy, span] = header;
    let setting = match Setting::new(accuracy as u32, span as u32) {
        Ok(setting) => setting,
        Err(refusal) => return writeln!(output, "{refusal}"),
    };
    if keeper == b'R' {
        serve::<K, Ring, _, _>(setting, input, output, heap)
    } else {
        serve::<K, Ladder, _, _>(setting, input, output, heap)
    }
}

fn main(rt: HostRuntime) -> io::Result<()> {
    let mut input = rt.stdin();
    let mut output = rt.stdout();
    let mut header = [0u8; 4];
    match input.read_exact(&mut header) {
        Ok(()) => {}
        // of a header that is too short, no byte is looked at
        Err(error) if error.kind() == ErrorKind::UnexpectedEof => header = [0; 4],
        Err(error) => return Err(error),
    }
    match header {
        [b'R' | b'L', b'S', ..] => {
            serve_keeper::<SoundingKey, _, _>(header, &mut input, &mut output, rt.alloc())
        }
        [b'R' | b'L', b'A', ..] => {
            serve_keeper::<AddressKey, _, _>(header, &mut input, &mut output, rt.alloc())
        }
        _ => writeln!(output, "no header"),
    }
}
