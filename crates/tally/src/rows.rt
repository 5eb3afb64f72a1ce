//! What a tally is kept in.

ghost use Rattle.std.specs.Prelude.{◌≡◌, ◌+◌, min, nat_lt, if◌then◌else◌};
ghost use Rattle.tally.specs.Steps.{lowered};

/// A key and its count: how often it was counted, less the falls since it entered.
#[derive(Clone, Copy, Debug)]
pub struct Row<K> {
    pub key: K,
    pub count: u32,
}

impl<K: Copy> Row<K> {
    /// A row that takes in the count of another, which is alike, and keeps its own key.
    pub(crate) fn joined(self, came: Row<K>) -> Row<K>
        ensures { result ≡ record self { count = min (self.count + came.count) 4294967295 } }
    {
        Row {
            count: self.count.saturating_add(came.count),
            ..self
        }
    }

    /// A row one lower, unless it comes to 0 and leaves.
    pub(crate) fn after_fall(self) -> Option<Row<K>>
        ensures { result ≡ (if nat_lt 0 (lowered self).count then Some (lowered self) else None) }
    {
        let count = self.count.saturating_sub(1);
        (count > 0).then_some(Row { count, ..self })
    }
}

/// How many rows of a slot are in use, and how often all counts fell.
// `used` stands beside the rows, and is no vector's length, since the rows are the caller's, who lends them: no heap.
#[derive(Clone, Copy, PartialEq, Eq, Debug)]
pub struct Head {
    pub used: u32,
    pub lost: u32,
}

/// The head of an empty tally.
pub const EMPTY: Head = Head { used: 0, lost: 0 };
