//! Which blocks answer for a window.

use crate::compared::Compared;
use crate::draws::Draws;
use crate::plan::{Plan, doubled};
use layout::{Cover, Layout, Walk};

// As many arrivals as there can ever be.
const MOST_ARRIVALS: u32 = 1 << 30;

// So many windows are drawn of each number of arrivals' digits in binary, and for each scale's ends.
const DRAWN_WINDOWS: u32 = 40;

const DRAWN_AT_ENDS: u32 = 5;

// All windows of the first arrivals where the span is short; those that just fit a scale, and one more or less; and some that are
// drawn, short and long ones.
pub(crate) fn compare(layout: &Layout, plan: &Plan, draws: &mut Draws, compared: &mut Compared) {
    for arrivals in 0..plan.few_arrivals() {
        for window in 0..plan.longest().min(arrivals).saturating_add(1) {
            compare_cover(layout, plan, arrivals, window, compared);
        }
    }
    for bits in 0..plan.span.saturating_add(1) {
        compare_ends(layout, plan, doubled(1, bits), draws, compared);
    }
    for bits in 1..31 {
        for _ in 0..DRAWN_WINDOWS {
            let arrivals = draws.bits(bits);
            let digits = draws.bits(5).min(plan.span);
            let window = draws.bits(digits).min(plan.longest()).min(arrivals);
            compare_cover(layout, plan, arrivals, window, compared);
        }
    }
}

// Windows of just so many, and one more or less, as far as there are such.
fn compare_ends(
    layout: &Layout,
    plan: &Plan,
    most: u32,
    draws: &mut Draws,
    compared: &mut Compared,
) {
    for window in most.saturating_sub(1)..most.saturating_add(2) {
        let window = window.min(plan.longest());
        compare_cover(layout, plan, window, window, compared);
        compare_cover(layout, plan, MOST_ARRIVALS, window, compared);
        for _ in 0..DRAWN_AT_ENDS {
            let arrivals = draws.bits(30).max(window);
            compare_cover(layout, plan, arrivals, window, compared);
        }
    }
}

// A scale, by its number, and the arrivals in its smallest block.
#[derive(Drop)]
struct Scale {
    number: u32,
    unit: u32,
}

// The first scale that is for windows so long.
fn scale_of(plan: &Plan, window: u32) -> Scale {
    let mut scale = Scale { number: 0, unit: 1 };
    for span in plan.top..plan.span {
        if window <= doubled(1, span) {
            break;
        }
        scale.number = scale.number.saturating_add(1);
        scale.unit = scale.unit.saturating_mul(2);
    }
    scale
}

fn is_multiple(number: u32, unit: u32) -> bool {
    number.checked_rem(unit) == Some(0)
}

// The first multiple from a number on.
fn up_to_multiple(number: u32, unit: u32) -> u32 {
    let mut multiple = number;
    for _ in 0..unit {
        if is_multiple(multiple, unit) {
            break;
        }
        multiple = multiple.saturating_add(1);
    }
    multiple
}

// The last multiple up to a number.
fn down_to_multiple(number: u32, unit: u32) -> u32 {
    let mut multiple = number;
    for _ in 0..unit {
        if is_multiple(multiple, unit) {
            break;
        }
        multiple = multiple.saturating_sub(1);
    }
    multiple
}

fn compare_cover(
    layout: &Layout,
    plan: &Plan,
    arrivals: u32,
    window: u32,
    compared: &mut Compared,
) {
    let scale = scale_of(plan, window);
    let start = up_to_multiple(arrivals.saturating_sub(window), scale.unit);
    let end = down_to_multiple(arrivals, scale.unit);
    let Cover { blocks, ignored } = layout.cover(arrivals, window);
    compared.note(layout.scale_of(window) == scale.number);
    let covered = compare_walk(plan, &scale, start, end, blocks, compared);
    compared.note(covered.saturating_add(ignored) == window);
}

// From block to block: each is the largest that can start where the one before it ended. How many arrivals they hold.
fn compare_walk(
    plan: &Plan,
    scale: &Scale,
    start: u32,
    end: u32,
    blocks: Walk,
    compared: &mut Compared,
) -> u32 {
    let mut position = start;
    let mut covered: u32 = 0;
    for block in blocks {
        let level = level_at(plan, scale, position, end);
        let below = scale.number.saturating_mul(plan.top.saturating_add(1));
        let same = match plan.levels.get(below.saturating_add(level) as usize) {
            Some(counted) => counted.is_level_of(&block, position),
            None => false,
        };
        compared.note(same);
        let size = doubled(scale.unit, level);
        position = position.saturating_add(size);
        covered = covered.saturating_add(size);
    }
    compared.note(position == end);
    covered
}

// The largest level whose block can start at a position and ends by another, from the largest down.
fn level_at(plan: &Plan, scale: &Scale, position: u32, end: u32) -> u32 {
    for level in (1..plan.top.saturating_add(1)).rev() {
        let size = doubled(scale.unit, level);
        if is_multiple(position, size) && size <= end.saturating_sub(position) {
            return level;
        }
    }
    0
}
