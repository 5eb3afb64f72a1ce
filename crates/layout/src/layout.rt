//! The layout of a setting.

ghost use Rattle.std.specs.Int.{leading_zeros, w32};
ghost use Rattle.std.specs.Prelude.{◌≡◌, ◌+◌, ◌-◌, ◌*◌, ◌^◌, ◌<◌, ◌≤◌, All, Contains};
ghost use Rattle.layout.specs.Blocks.{Stretch, visits_of};
ghost use Rattle.layout.specs.Cases.{Ninety, Seventeen};
ghost use Rattle.layout.specs.Covers.{cover_of, end_of, ignored_of, scale_of, start_of};
ghost use Rattle.layout.specs.Inside.{IsLevel, IsShape, IsWalk};
ghost use Rattle.layout.specs.Laws.{AreEnds, FillHeads, FillRows, IsCover, IsNear, IsScaleFor, IsVisit, IsWindow, longest};
ghost use Rattle.layout.specs.Slots.{all_heads, all_rows, heads_below, rows_below, shape_of};

use crate::cover::Cover;
use crate::level::Level;
use crate::visits::Visits;
use crate::walk::Walk;
use settings::Setting;
use std::marker::Model;

/// The layout of a ladder, a keeper of many small tallies: for each of many blocks of arrivals one.
///
/// At accuracy a and span K, with L = a + 3, there is a scale for windows of up to 2^L keys, one for those of up to 2^(L + 1), and so on
/// to 2^K; they are counted from 0. Scale i has levels 0 to L, and a block of level j holds 2^(i + j) arrivals. A level has
/// 2^(L - j) + 1 slots, which its blocks use in turn, each of 2^j * (L + 1) - 1 rows and one head; they lie by scale, then by level,
/// then by slot. None of that is kept in a table: places are worked out.
// What all slots take follows from the two other numbers. It is kept, since every call on a keeper asks for it.
#[derive(Clone, Copy, PartialEq, Eq, Debug)]
pub struct Layout {
    top: u32,
    scales: u32,
    rows: usize,
    heads: usize,
}

impl Model for Layout {
    ghost use Rattle.layout.specs.Slots.{Shape, all_rows, all_heads};
    ghost use Rattle.layout.specs.Inside.{IsShape, Takes};

    ghost Value = { Shape };

    ghost view = { λ l. record { top = l.top; scales = l.scales } };

    ghost invariant = { λ l. IsShape l.top l.scales × Takes l.top l.scales l.rows l.heads };

    ghost inverse = { λ s. record { top = s.top; scales = s.scales; rows = all_rows s; heads = all_heads s } };

    ghost inverse_ok = { λ l is t. record { top = l.top; scales = l.scales; rows = is.1.rows t; heads = is.1.heads t } };
}

// Where a cover lies: at a scale, from one arrival to another. `top` is the number of the scale's last level.
#[derive(Drop)]
struct Edges {
    top: u32,
    scale: u32,
    start: u32,
    end: u32,
}

impl Layout {
    /// The layout of a setting.
    pub fn of(setting: Setting) -> Layout
        ensures value { result ≡ shape_of setting.accuracy setting.span }
        ensures range { IsShape result.top result.scales }
    {
        let top = setting.accuracy() + 3;
        let scales = setting.span() + 1 - top;
        let last = last_level(top, scales);
        Layout {
            top,
            scales,
            rows: last.row_behind(),
            heads: last.head_behind(),
        }
    }

    /// How many rows the slots take.
    pub fn rows(&self) -> usize
        ensures value { result ≡ all_rows self.now }
        ensures sum { result ≡ self.now.scales * rows_below self.now.top (self.now.top + 1) }
        ensures few { result < 2 ^ 21 }
        ensures filled { FillRows self.now result }
    {
        self.rows
    }

    /// How many heads the slots take: one each.
    pub fn heads(&self) -> usize
        ensures value { result ≡ all_heads self.now }
        ensures sum { result ≡ self.now.scales * heads_below self.now.top (self.now.top + 1) }
        ensures few { result < 2 ^ 16 }
        ensures filled { FillHeads self.now result }
    {
        self.heads
    }

    /// The scale that answers for windows of this size: the smallest that is for windows so long, or the last where none is.
    pub fn scale_of(&self, window: u32) -> u32
        ensures value { result ≡ scale_of self.now window }
        ensures there { IsLevel self.now.top result 0 }
        ensures right { window ≤ longest self.now → IsScaleFor self.now window result }
    {
        digits(window).saturating_sub(self.top).min(self.scales - 1)
    }

    /// The blocks that an arrival falls into: one at each level of each scale, by scale and then by level.
    pub fn visits(&self, arrival: u32) -> Visits
        ensures value { result ≡ visits_of self.now arrival }
        ensures right { All (IsVisit self.now arrival) result }
        ensures all { (b : Stretch) → IsVisit self.now arrival b → Contains result b }
    {
        Visits {
            top: self.top,
            scales: self.scales,
            arrival,
            scale: 0,
            level: 0,
            row: 0,
            head: 0,
        }
    }

    /// The blocks that answer for a window: the newest `window` of so many arrivals.
    ///
    /// From the window's beginning, rounded up to a multiple of its scale's smallest block, to its end, rounded down, they are the
    /// largest that can be taken one after the other. For numbers that are no window, the same is answered: it begins at the first
    /// arrival, or is answered for by the last scale.
    pub fn cover(&self, arrivals: u32, window: u32) -> Cover
        ensures blocks { result.blocks ≡ cover_of self.now arrivals window }
        ensures ignored { result.ignored ≡ ignored_of self.now arrivals window }
        ensures right { IsWindow self.now arrivals window → IsCover self.now arrivals window result.blocks result.ignored }
        ensures near { IsWindow self.now arrivals window → IsNear self.now window result.blocks result.ignored }
        ensures cases { Ninety × Seventeen }
    {
        let found = self.edges(arrivals, window);
        Cover {
            blocks: Walk {
                top: found.top,
                scale: found.scale,
                position: found.start,
                end: found.end,
            },
            ignored: window - (found.end - found.start),
        }
    }

    // Where a window's cover lies.
    fn edges(&self, arrivals: u32, window: u32) -> Edges
        ensures walk { IsWalk result.top result.scale result.start result.end }
        ensures shape { IsShape self.now.top self.now.scales }
        ensures top { result.top ≡ self.now.top }
        ensures scale { result.scale ≡ scale_of self.now window }
        ensures start { result.start ≡ start_of result.scale arrivals window }
        ensures end { result.end ≡ end_of result.scale arrivals }
        ensures right { AreEnds result.scale arrivals window result.start result.end }
    {
        let scale = self.scale_of(window);
        Edges {
            top: self.top,
            scale,
            start: cover_start(scale, arrivals, window),
            end: cover_end(scale, arrivals),
        }
    }
}

// The last level of the last scale: behind its slots there are none.
fn last_level(top: u32, scales: u32) -> Level
    requires { IsShape top scales }
    ensures { result ≡ record { top = top; scale = scales - 1; number = top } }
{
    Level::of(top, scales - 1, top)
}

// The exponent of the least power of 2 that a window fits in: as many digits as the number before its size has in binary.
fn digits(window: u32) -> u32
    ensures { result ≡ 32 - leading_zeros w32 (window - 1) }
{
    u32::BITS - window.saturating_sub(1).leading_zeros()
}

// Where a cover begins: at the window's first arrival, rounded up to a multiple of the scale's smallest block. So a block that the
// window's edge cuts is left out.
fn cover_start(scale: u32, arrivals: u32, window: u32) -> u32
    requires { (scale ≤ 16) × (start_of scale arrivals window < 2 ^ 32) }
    ensures { result ≡ start_of scale arrivals window }
{
    arrivals.saturating_sub(window).next_multiple_of(1 << scale)
}

// Where it ends: behind the last arrival, rounded down.
fn cover_end(scale: u32, arrivals: u32) -> u32
    requires { scale ≤ 16 }
    ensures { result ≡ end_of scale arrivals }
{
    arrivals - arrivals % (1 << scale)
}
