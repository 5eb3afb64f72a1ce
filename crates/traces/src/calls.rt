//! The calls of a trace, and what they answer.

use windows::WindowRefusal;

/// A call of a trace. Each has the states in which it can be made; tables and list are lent to all alike.
#[derive(Clone, Copy, Debug)]
pub enum Call<K> {
    /// Makes a fixed window of this size on the keeper.
    Fix(u32),
    /// One key more, to a keeper or a window that is being filled.
    Put(K),
    /// The keeper's window lets its oldest key go.
    DropOldest,
    /// The window that was filled slides from now on.
    Turn,
    /// One key more, to a window that slides.
    Slide(K),
    /// A count of a key.
    Count(K),
    /// A list at a threshold.
    List(u32),
}

/// What a call of a trace answers. Of a list it tells an `L`: how many entries were written, or the entries themselves.
#[derive(Debug, Drop)]
pub enum Answer<L> {
    /// The call was accepted.
    Done,
    /// The call was refused, and changed nothing.
    Refused(WindowRefusal),
    /// A count.
    Counted { floor: u32, ceiling: u32 },
    /// A list.
    Listed(L),
    /// The state has no such call: it changed nothing.
    NotInTrace,
}
