//! One key comes to the ladder: it goes to the slot of every block that its arrival falls into.

ghost use Rattle.std.specs.Prelude.{◌≡◌, ◌≤◌, fold, length};
ghost use Rattle.layout.specs.Blocks.{slot_of, visits_of};
ghost use Rattle.ladder.specs.Tables.{HasRoom, Lies, put_tables, tables, visited};

use layout::{Block, Layout, Place};
use likeness::Likeness;
use tally::{EMPTY, Head, Row, step};

// An arrival is counted in the slot of a block that it falls into. If it is the block's first, what the slot held of an
// earlier block goes first.
fn visit<K: Likeness>(rows: &mut [Row<K>], heads: &mut [Head], block: &Block, arrival: u32, key: K)
    requires { Lies (slot_of block.now) rows.old heads.old }
    ensures { tables rows.new heads.new ≡ visited K.alike arrival key (tables rows.old heads.old) block.now }
{
    let Place {
        start,
        rows: count,
        head,
    } = block.place();
    let before = if block.first() == arrival {
        EMPTY
    } else {
        heads[head]
    };
    heads[head] = step(&mut rows[start..start + count], before, key);
}

// An arrival is counted in each of its blocks.
pub(crate) fn visit_all<K: Likeness>(
    rows: &mut [Row<K>],
    heads: &mut [Head],
    layout: &Layout,
    arrival: u32,
    key: K,
)
    requires { HasRoom layout.now rows.old heads.old }
    ensures { tables rows.new heads.new ≡ put_tables K.alike arrival key layout.now (tables rows.old heads.old) }
{
    for block in layout.visits(arrival) {
        visit(rows, heads, &block, arrival, key);
    }
}
