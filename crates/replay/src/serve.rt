//! From a reader of requests to a writer of answers.

ghost use Rattle.std.specs.Prelude.{◌<◌};

use crate::answer::answer;
use crate::coded::Coded;
use crate::draws::Draws;
use crate::request::{LENGTH, Request};
use crate::tables::Tables;
use keeper::Keeper;
use likeness::SoundingKey;
use settings::Setting;
use std::alloc::Global;
use std::io::{self, Read, Write};
use traces::Stage;

// How many bytes are read at once.
const PIECE: usize = 65536;

// The bytes of a request, as far as they have come.
#[derive(Drop)]
struct Begun {
    bytes: [u8; LENGTH],
    come: usize,
    ghost incomplete: { come < 12 },
}

impl Begun {
    fn empty() -> Begun {
        Begun {
            bytes: [0; LENGTH],
            come: 0,
        }
    }

    // One byte more; the request, if it is complete.
    fn take(&mut self, byte: u8) -> Option<Request> {
        self.bytes[self.come] = byte;
        if self.come + 1 < LENGTH {
            self.come += 1;
            return None;
        }
        self.come = 0;
        Some(Request::of(self.bytes))
    }
}

/// Makes a keeper, and answers each request that comes. What the requests of one piece are answered is written at once.
pub(crate) fn serve<K: Coded, P: Keeper<K> + Keeper<SoundingKey> + Drop, R: Read, W: Write>(
    setting: Setting,
    input: &mut R,
    output: &mut W,
    heap: Global,
) -> io::Result<()> {
    let keeper = <P as Keeper<K>>::fresh(setting);
    let mut tables = Tables::<K>::fresh(keeper.needs(), 1 << setting.span(), heap)?;
    let mut stage = Stage::Keeper(keeper);
    let mut draws = Draws::fresh();
    let mut begun = Begun::empty();
    let mut piece = vec![in heap; 0u8; PIECE]?;
    let mut out = String::with_capacity(heap, PIECE)?;
    // The pieces are counted, since every function has to end.
    for _ in 0..u64::MAX {
        let count = input.read(&mut piece)?;
        if count == 0 {
            break;
        }
        for byte in &piece[..count] {
            if let Some(request) = begun.take(*byte) {
                stage = answer(stage, &mut tables, &mut draws, &request, &mut out)?;
            }
        }
        output.write_all(out.as_bytes())?;
        out.clear();
    }
    Ok(())
}
