//! One request.

pub(crate) const LENGTH: usize = 12;

#[derive(Clone, Copy)]
pub(crate) struct Request {
    pub(crate) op: u8,
    pub(crate) key: [u8; 5],
    pub(crate) small: u8,
    pub(crate) what: u8,
    pub(crate) number: u32,
}

impl Request {
    pub(crate) fn of(bytes: [u8; LENGTH]) -> Request {
        let [op, a, b, c, d, e, small, what, w, x, y, z] = bytes;
        Request {
            op,
            key: [a, b, c, d, e],
            small,
            what,
            number: u32::from_le_bytes([w, x, y, z]),
        }
    }

    // What the key's first four bytes spell as a number.
    pub(crate) fn key_number(&self) -> u32 {
        let [a, b, c, d, _] = self.key;
        u32::from_le_bytes([a, b, c, d])
    }
}
