//! What both keepers are asked after each step of a trace.

use crate::both::Both;
use crate::draws::Draws;
use crate::entries::{are_apart, are_named, is_right_entry};
use crate::findings::Findings;
use keeper::{Entry, Refusal};
use likeness::AddressKey;
use settings::Setting;
use std::alloc::{AllocError, Global};

// A count is asked after so many steps.
const COUNT_AFTER: u32 = 3;

// Lists are asked after so many steps for each key of the window: the longer it is, the longer they take.
const LISTS_AFTER: u32 = 4;

#[derive(Drop)]
pub(crate) struct Audit {
    setting: Setting,
    steps: u32,
    // how many there were when lists were last asked
    steps_listed: u32,
    // as many entries as the window can hold keys, for the ring's lists and for the ladder's
    exact_room: Vec<Entry<AddressKey>>,
    room: Vec<Entry<AddressKey>>,
    pub(crate) findings: Findings,
}

impl Audit {
    pub(crate) fn fresh(setting: Setting, heap: Global) -> Result<Audit, AllocError> {
        let blank = Entry {
            key: AddressKey { bytes: *b"SDAAA" },
            floor: 0,
            ceiling: 0,
        };
        let longest = 1usize << setting.span();
        Ok(Audit {
            setting,
            steps: 0,
            steps_listed: 0,
            exact_room: vec![in heap; blank; longest]?,
            room: vec![in heap; blank; longest]?,
            findings: Findings::none(setting),
        })
    }

    // After a put or a drop, which both answered the same or not.
    pub(crate) fn after_step(&mut self, same: bool, both: &Both, draws: &mut Draws) {
        self.findings.calls.note(same);
        self.steps = self.steps.saturating_add(1);
        if self.steps % COUNT_AFTER == 0 {
            let counted = both.count(&draws.key_to_ask());
            self.findings.counts.note(counted);
        }
        if self.steps.saturating_sub(self.steps_listed) > both.size().saturating_mul(LISTS_AFTER) {
            self.steps_listed = self.steps;
            let least = both.size().div_ceil(1 << self.setting.accuracy()).max(1);
            self.ask_refused(both, least - 1);
            self.ask_list(both, least);
        }
    }

    // A list at a threshold that is too low.
    fn ask_refused(&mut self, both: &Both, threshold: u32) {
        let exact = both.ring.list(threshold, &mut self.exact_room);
        let listed = both.ladder.list(threshold, &mut self.room);
        let refused = Some(Refusal::Threshold);
        self.findings
            .calls
            .note(exact.err() == refused && listed.err() == refused);
    }

    // A list at a threshold that is high enough.
    fn ask_list(&mut self, both: &Both, threshold: u32) {
        let exact = both.ring.list(threshold, &mut self.exact_room);
        let listed = both.ladder.list(threshold, &mut self.room);
        let (Ok(exact), Ok(listed)) = (exact, listed) else {
            self.findings.lists.note(false, 0, 0);
            return;
        };
        let right = are_apart(listed)
            && are_named(listed, exact)
            && listed.iter().all(|entry| match both.count(&entry.key) {
                Ok(counted) => is_right_entry(self.setting, threshold, &counted, entry),
                Err(_) => false,
            });
        self.findings.lists.note(right, listed.len(), exact.len());
    }
}
