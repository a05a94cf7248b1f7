//! What the front of a log page tells.

/// The fields at the front of a log page.
#[derive(Clone, Copy, Debug, PartialEq, Eq)]
pub struct LogHead {
    /// The place of the page in its file, from 0.
    pub index: u32,
    /// The unique number of the use of the file, from 1.
    pub uniq: u64,
    /// The incarnation of the installation that wrote the page, from 1.
    pub incarnation: u64,
    /// The position of the first record, from 1.
    pub first: u64,
    /// How many records the page holds, at least 1.
    pub count: u16,
    /// How many bytes these have, at most 2,012.
    pub used: u16,
}
