//! From an arrival to its blocks.

use crate::block::Block;
use crate::level::Level;
use std::marker::Model;

// `row` and `head` are where the next level's slots begin.
/// The blocks that an arrival falls into, as far as they are left.
#[derive(Debug, Drop)]
pub struct Visits {
    pub(crate) top: u32,
    pub(crate) scales: u32,
    pub(crate) arrival: u32,
    pub(crate) scale: u32,
    pub(crate) level: u32,
    pub(crate) row: usize,
    pub(crate) head: usize,
}

impl Model for Visits {
    ghost use Rattle.std.specs.Prelude.{List};
    ghost use Rattle.layout.specs.Blocks.{Stretch, visits_left};
    ghost use Rattle.layout.specs.Inside.{AreLeft, Begins};

    ghost Value = { List Stretch };

    ghost view = { λ v. visits_left v.top v.scales v.arrival v.scale v.level };

    ghost invariant = { λ v. AreLeft v.top v.scales v.scale v.level × Begins v.top v.scale v.level v.row v.head };
}

impl Iterator for Visits {
    ghost use Rattle.std.specs.Iterator.{YieldsFirst, item_count};

    type Item = Block;

    ghost next_gives = { YieldsFirst (λ v. v) };

    ghost remaining = { item_count (λ v. v) };

    fn next(&mut self) -> Option<Block> {
        if self.scale == self.scales {
            return None;
        }
        let level = Level {
            top: self.top,
            scale: self.scale,
            number: self.level,
            first_row: self.row,
            first_head: self.head,
        };
        let block = Block {
            level,
            number: self.arrival >> level.exponent(),
        };
        self.row = level.row_behind();
        self.head = level.head_behind();
        if self.level < self.top {
            self.level += 1;
        } else {
            self.scale += 1;
            self.level = 0;
        }
        Some(block)
    }
}
