//! A level of a scale, and where its slots lie.

ghost use Rattle.std.specs.Prelude.{◌≡◌, ◌+◌, ◌*◌, ◌^◌, ◌<◌, ◌≤◌};
ghost use Rattle.layout.specs.Inside.{IsLevel};
ghost use Rattle.layout.specs.Slots.{block_size, heads_below, rows_at, rows_below, scale_heads, scale_rows, slots_at};

use std::marker::Model;

// A level of a scale, with its first row and its first head: `top` is the number of that scale's last level. Both follow from the other
// numbers. They are kept, since the next level begins just behind: a walk over all levels carries them on by a sum each.
#[derive(Clone, Copy, PartialEq, Eq, Debug)]
pub(crate) struct Level {
    pub(crate) top: u32,
    pub(crate) scale: u32,
    pub(crate) number: u32,
    pub(crate) first_row: usize,
    pub(crate) first_head: usize,
}

impl Model for Level {
    ghost use Rattle.std.specs.Prelude.{◌+◌, ◌*◌};
    ghost use Rattle.layout.specs.Slots.{Rung, scale_rows, scale_heads, rows_below, heads_below};
    ghost use Rattle.layout.specs.Inside.{IsLevel, Begins};

    ghost Value = { Rung };

    ghost view = { λ l. record { top = l.top; scale = l.scale; number = l.number } };

    ghost invariant = { λ l. IsLevel l.top l.scale l.number × Begins l.top l.scale l.number l.first_row l.first_head };

    ghost inverse = { λ r. record {
      top = r.top;
      scale = r.scale;
      number = r.number;
      first_row = r.scale * scale_rows r.top + rows_below r.top r.number;
      first_head = r.scale * scale_heads r.top + heads_below r.top r.number;
    } };

    ghost inverse_ok = { λ l is t. record {
      top = l.top;
      scale = l.scale;
      number = l.number;
      first_row = is.1.row t;
      first_head = is.1.head t;
    } };
}

impl Level {
    // A level by its numbers.
    pub(crate) fn of(top: u32, scale: u32, number: u32) -> Level
        requires { IsLevel top scale number }
        ensures { result ≡ record { top = top; scale = scale; number = number } }
    {
        Level {
            top,
            scale,
            number,
            first_row: scale as usize * scale_rows(top) + below_rows(top, number),
            first_head: scale as usize * scale_heads(top) + below_heads(top, number),
        }
    }

    // How many arrivals its blocks hold, as a power of 2.
    pub(crate) fn exponent(&self) -> u32
        ensures value { result ≡ self.now.scale + self.now.number }
        ensures small { result ≤ 20 }
    {
        self.scale + self.number
    }

    // How many slots it has.
    pub(crate) fn slots(&self) -> u32
        ensures { result ≡ slots_at self.now.top self.now.number }
    {
        slots_at(self.top, self.number)
    }

    // How many rows each of them has.
    pub(crate) fn rows(&self) -> usize
        ensures { result ≡ rows_at self.now.top self.now.number }
    {
        rows_at(self.top, self.number)
    }

    // Its first row.
    pub(crate) fn first_row(&self) -> usize
        ensures value { result ≡ self.now.scale * scale_rows self.now.top + rows_below self.now.top self.now.number }
        ensures small { result + slots_at self.now.top self.now.number * rows_at self.now.top self.now.number < 2 ^ 21 }
    {
        self.first_row
    }

    // Its first head.
    pub(crate) fn first_head(&self) -> usize
        ensures value { result ≡ self.now.scale * scale_heads self.now.top + heads_below self.now.top self.now.number }
        ensures small { result + slots_at self.now.top self.now.number < 2 ^ 16 }
    {
        self.first_head
    }

    // The row behind its slots.
    pub(crate) fn row_behind(&self) -> usize
        ensures value { result ≡ self.now.scale * scale_rows self.now.top + rows_below self.now.top self.now.number
            + slots_at self.now.top self.now.number * rows_at self.now.top self.now.number }
        ensures small { result < 2 ^ 21 }
    {
        self.first_row() + self.slots() as usize * self.rows()
    }

    // The head behind them.
    pub(crate) fn head_behind(&self) -> usize
        ensures value { result ≡ self.now.scale * scale_heads self.now.top + heads_below self.now.top self.now.number
            + slots_at self.now.top self.now.number }
        ensures small { result < 2 ^ 16 }
    {
        self.first_head() + self.slots() as usize
    }
}

fn power(exponent: u32) -> usize
    requires { exponent < 32 }
    ensures { result ≡ 2 ^ exponent }
{
    1 << exponent
}

// How many slots a level has: as many as blocks of its size can touch its scale's longest window, whose edge can cut the oldest.
fn slots_at(top: u32, level: u32) -> u32
    requires { (top ≤ 9) × (level ≤ top) }
    ensures { result ≡ slots_at top level }
{
    (1 << (top - level)) + 1
}

// How many rows each of them has.
fn rows_at(top: u32, level: u32) -> usize
    requires { (top ≤ 9) × (level ≤ top) }
    ensures { result ≡ rows_at top level }
{
    power(level) * (top as usize + 1) - 1
}

// How many rows the levels below this one have. Level j has (2^top + 2^j) * (top + 1) rows, less one for each of its slots, of which
// there are 2^(top - j) + 1; over the levels, powers of 2 in a row add up to two of them. Of these sums, what is of this level is told
// by its own slots and rows, so that a walk from level to level has few powers to find.
fn below_rows(top: u32, level: u32) -> usize
    requires { (top ≤ 9) × (level ≤ top) }
    ensures { result ≡ rows_below top level }
{
    let levels = top as usize + 1;
    let below = level as usize;
    below * (power(top) * levels) + 2 * slots_at(top, level) as usize + rows_at(top, level)
        - (power(top + 1) + levels + below + 1)
}

// How many heads the levels below this one have.
fn below_heads(top: u32, level: u32) -> usize
    requires { (top ≤ 9) × (level ≤ top) }
    ensures { result ≡ heads_below top level }
{
    power(top + 1) + level as usize + 2 - 2 * slots_at(top, level) as usize
}

// How many rows a scale has: its last level has two slots.
fn scale_rows(top: u32) -> usize
    requires { top ≤ 9 }
    ensures { result ≡ scale_rows top }
{
    below_rows(top, top) + 2 * rows_at(top, top)
}

// How many heads a scale has.
fn scale_heads(top: u32) -> usize
    requires { top ≤ 9 }
    ensures { result ≡ scale_heads top }
{
    below_heads(top, top) + 2
}
