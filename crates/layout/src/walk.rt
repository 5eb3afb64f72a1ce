//! The walk from block to block.

ghost use Rattle.std.specs.Prelude.{◌≡◌, ◌+◌, ◌<◌, ◌≤◌};
ghost use Rattle.layout.specs.Blocks.{block_of, size};
ghost use Rattle.layout.specs.Covers.{level_at};
ghost use Rattle.layout.specs.Inside.{IsWalk};

use crate::block::Block;
use crate::level::Level;
use std::marker::Model;

/// The blocks of a cover that are left, oldest first.
#[derive(Debug, Drop)]
pub struct Walk {
    pub(crate) top: u32,
    pub(crate) scale: u32,
    pub(crate) position: u32,
    pub(crate) end: u32,
}

impl Model for Walk {
    ghost use Rattle.std.specs.Prelude.{List};
    ghost use Rattle.layout.specs.Blocks.{Stretch};
    ghost use Rattle.layout.specs.Covers.{walk_between};
    ghost use Rattle.layout.specs.Inside.{IsWalk};

    ghost Value = { List Stretch };

    ghost view = { λ w. walk_between w.top w.scale w.position w.end };

    ghost invariant = { λ w. IsWalk w.top w.scale w.position w.end };
}

// The largest level whose block can start at a position and ends by `end`. As an exponent of 2, its size is no more than the zeros
// that end the position in binary, and no more than fits in what is left. Neither is below the scale's smallest block.
fn level_at(top: u32, scale: u32, position: u32, end: u32) -> u32
    requires walk { IsWalk top scale position end }
    requires some { position < end }
    ensures { result ≡ level_at scale position end top }
{
    let exponent = position.trailing_zeros().min((end - position).ilog2());
    (exponent - scale).min(top)
}

// That block.
fn block_at(top: u32, scale: u32, position: u32, end: u32) -> Block
    requires { IsWalk top scale position end × position < end }
    ensures value { result ≡ block_of top position scale (level_at scale position end top) }
    ensures after { IsWalk top scale (position + size result) end }
{
    let level = Level::of(top, scale, level_at(top, scale, position, end));
    Block {
        level,
        number: position >> level.exponent(),
    }
}

impl Iterator for Walk {
    ghost use Rattle.std.specs.Iterator.{YieldsFirst, item_count};

    type Item = Block;

    ghost next_gives = { YieldsFirst (λ w. w) };

    ghost remaining = { item_count (λ w. w) };

    fn next(&mut self) -> Option<Block> {
        if self.position >= self.end {
            return None;
        }
        let block = block_at(self.top, self.scale, self.position, self.end);
        self.position += block.size();
        Some(block)
    }
}
