//! The tables that calls are lent.

use crate::coded::Coded;
use crate::digest::digest_of;
use keeper::{Entry, Lengths};
use std::alloc::{AllocError, Global};
use tally::{EMPTY, Head, Row};

/// Two tables and a list, and how much of each is lent.
#[derive(Drop)]
pub(crate) struct Tables<K> {
    rows: Vec<Row<K>>,
    heads: Vec<Head>,
    list: Vec<Entry<K>>,
    pub(crate) most_rows: u32,
    pub(crate) most_heads: u32,
    pub(crate) most_places: u32,
}

/// What a call is lent.
#[derive(Drop)]
pub(crate) struct Lent<'a, K> {
    pub(crate) rows: &'a mut [Row<K>],
    pub(crate) heads: &'a mut [Head],
    pub(crate) list: &'a mut [Entry<K>],
}

impl<K: Coded> Tables<K> {
    // As long as is needed, with nothing in them; all of them is lent.
    pub(crate) fn fresh(
        need: Lengths,
        places: usize,
        heap: Global,
    ) -> Result<Tables<K>, AllocError> {
        let key = K::blank();
        Ok(Tables {
            rows: vec![in heap; Row { key, count: 0 }; need.rows]?,
            heads: vec![in heap; EMPTY; need.heads]?,
            list: vec![in heap; Entry {
                key,
                floor: 0,
                ceiling: 0
            }; places]?,
            most_rows: u32::MAX,
            most_heads: u32::MAX,
            most_places: u32::MAX,
        })
    }

    pub(crate) fn lent(&mut self) -> Lent<'_, K> {
        let rows = self.rows.len().min(self.most_rows as usize);
        let heads = self.heads.len().min(self.most_heads as usize);
        let places = self.list.len().min(self.most_places as usize);
        Lent {
            rows: &mut self.rows[..rows],
            heads: &mut self.heads[..heads],
            list: &mut self.list[..places],
        }
    }

    // Writes a number as the count of a row, and into a head: both at this place, or the one that it is behind the table's end.
    pub(crate) fn spoil(&mut self, place: u32, number: u32) {
        let place = place as usize;
        if !self.rows.is_empty() {
            let rows = self.rows.len();
            self.rows[place % rows].count = number;
        }
        if !self.heads.is_empty() {
            let heads = self.heads.len();
            self.heads[place % heads] = Head {
                used: number,
                lost: number,
            };
        }
    }

    pub(crate) fn digest(&self) -> u64 {
        digest_of(&self.rows, &self.heads)
    }
}
