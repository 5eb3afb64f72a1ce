//! A long trace of puts and drops, which ring and ladder both get.

ghost use Rattle.std.specs.Prelude.{◌≤◌};

use crate::audit::Audit;
use crate::both::Both;
use crate::draws::Draws;
use crate::findings::Findings;
use settings::Setting;
use std::alloc::{AllocError, Global};

// How often a window slides at one size, how many small sizes are drawn for a scale, how often the window walks at random, and how
// many steps.
const SLIDES: u32 = 200;

const SMALL_SIZES: u32 = 3;

const WALKS: u32 = 5;

const WALK: u32 = 500;

#[derive(Drop)]
pub(crate) struct Trace {
    setting: Setting,
    both: Both,
    draws: Draws,
    audit: Audit,
}

impl Trace {
    pub(crate) fn fresh(setting: Setting, draws: Draws, heap: Global) -> Result<Trace, AllocError> {
        Ok(Trace {
            setting,
            both: Both::fresh(setting, heap)?,
            draws,
            audit: Audit::fresh(setting, heap)?,
        })
    }

    // The whole trace.
    pub(crate) fn run(&mut self) {
        self.go_to_the_ends();
        self.go_to_and_fro();
        self.go_astray();
    }

    // What was found.
    pub(crate) fn findings(&self) -> &Findings {
        &self.audit.findings
    }

    // Until the window is full, and there is no room for one key more; and until it is empty, and there is none to let go.
    fn go_to_the_ends(&mut self) {
        let longest = 1 << self.setting.span();
        self.slide_at(longest);
        self.slide_at(0);
        self.drop_oldest();
    }

    // Long and short sizes in turn: long ones that get shorter, and short ones that get longer.
    fn go_to_and_fro(&mut self) {
        let span = self.setting.span();
        for digits in 0..span + 1 {
            self.slide_at_sizes(span - digits);
            self.slide_at_sizes(digits);
        }
    }

    // Sizes N for which N - 1 has so many digits in binary: one scale answers for them all. The small ones are drawn more often,
    // since brackets are widest there beside the window.
    fn slide_at_sizes(&mut self, digits: u32)
        requires { digits ≤ 20 }
    {
        let half = (1u32 << digits) >> 1;
        for _ in 0..SMALL_SIZES {
            let more = self.draws.below(half / 8);
            self.slide_at(half.saturating_add(more).saturating_add(1));
        }
        let more = self.draws.below(half);
        self.slide_at(half.saturating_add(more).saturating_add(1));
    }

    // Puts and drops at random, in long runs and then one by one.
    fn go_astray(&mut self) {
        let longest = 1 << self.setting.span();
        for _ in 0..WALKS {
            let size = self.draws.below(longest);
            self.resize(size);
            for _ in 0..WALK {
                if self.draws.below(2) == 0 {
                    self.put();
                } else {
                    self.drop_oldest();
                }
            }
        }
    }

    // Each key that comes lets one go. Where there is no room for it, it is refused.
    fn slide_at(&mut self, size: u32) {
        self.resize(size);
        for _ in 0..SLIDES {
            self.put();
            self.drop_oldest();
        }
    }

    fn resize(&mut self, size: u32) {
        for _ in self.both.size()..size {
            self.put();
        }
        for _ in size..self.both.size() {
            self.drop_oldest();
        }
    }

    fn put(&mut self) {
        let key = self.draws.key();
        let same = self.both.put(key);
        self.audit.after_step(same, &self.both, &mut self.draws);
    }

    fn drop_oldest(&mut self) {
        let same = self.both.drop_oldest();
        self.audit.after_step(same, &self.both, &mut self.draws);
    }
}
