//! What was found: in one trace, and in all of them.

use crate::counts::Counts;
use crate::lists::Lists;
use crate::score::Score;
use settings::Setting;

// `calls` are those that both have to answer alike: puts, drops, and lists that have to be refused.
#[derive(Drop)]
pub(crate) struct Findings {
    pub(crate) counts: Counts,
    pub(crate) lists: Lists,
    pub(crate) calls: Score,
}

impl Findings {
    pub(crate) fn none(setting: Setting) -> Findings {
        Findings {
            counts: Counts::none(setting),
            lists: Lists::none(),
            calls: Score::none(),
        }
    }
}

#[derive(Drop)]
pub(crate) struct Totals {
    pub(crate) counts: Score,
    pub(crate) lists: Lists,
    pub(crate) calls: Score,
}

impl Totals {
    pub(crate) fn none() -> Totals {
        Totals {
            counts: Score::none(),
            lists: Lists::none(),
            calls: Score::none(),
        }
    }

    pub(crate) fn add(&mut self, findings: &Findings) {
        self.counts.add(&findings.counts.score);
        self.lists.add(&findings.lists);
        self.calls.add(&findings.calls);
    }
}
