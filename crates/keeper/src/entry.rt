//! The entries of a list.

/// A listed key, with the bracket around its true count.
#[derive(Clone, Copy, Debug)]
pub struct Entry<K> {
    pub key: K,
    pub floor: u32,
    pub ceiling: u32,
}
