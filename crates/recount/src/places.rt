//! Where the blocks of an arrival lie.

use crate::compared::Compared;
use crate::draws::Draws;
use crate::plan::Plan;
use layout::Layout;

// So many arrivals are looked at from the first on, and so many are drawn of each number of digits in binary.
const FIRST_ARRIVALS: u32 = 2_000;

const DRAWN_ARRIVALS: u32 = 20;

// The needs, and the blocks of the first arrivals and of some that are drawn, up to 2^30.
pub(crate) fn compare(layout: &Layout, plan: &Plan, draws: &mut Draws, compared: &mut Compared) {
    compared.note(layout.rows() == plan.rows);
    compared.note(layout.heads() == plan.heads);
    for arrival in 0..FIRST_ARRIVALS {
        compare_visits(layout, plan, arrival, compared);
    }
    for bits in 1..31 {
        for _ in 0..DRAWN_ARRIVALS {
            compare_visits(layout, plan, draws.bits(bits), compared);
        }
    }
}

fn compare_visits(layout: &Layout, plan: &Plan, arrival: u32, compared: &mut Compared) {
    let mut visits = layout.visits(arrival);
    for level in plan.levels.iter() {
        let same = match visits.next() {
            Some(block) => level.is_level_of(&block, arrival),
            None => false,
        };
        compared.note(same);
    }
    compared.note(visits.next().is_none());
}
