//! A digest of whole tables: FNV-1a with 64 bits.

use crate::coded::Coded;
use tally::{Head, Row};

const BASIS: u64 = 14_695_981_039_346_656_037;

const PRIME: u64 = 1_099_511_628_211;

// The digest after more bytes.
fn after(digest: u64, bytes: &[u8]) -> u64 {
    let mut next = digest;
    for byte in bytes {
        next = (next ^ *byte as u64).wrapping_mul(PRIME);
    }
    next
}

// Of each row key and count, and then of each head used and lost.
pub(crate) fn digest_of<K: Coded>(rows: &[Row<K>], heads: &[Head]) -> u64 {
    let mut digest = BASIS;
    for row in rows {
        digest = after(digest, &row.key.spelling());
        digest = after(digest, &row.count.to_le_bytes());
    }
    for head in heads {
        digest = after(digest, &head.used.to_le_bytes());
        digest = after(digest, &head.lost.to_le_bytes());
    }
    digest
}
