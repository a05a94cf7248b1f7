//! Places in the log files.

/// The page that is written next.
#[derive(Clone, Copy, Debug, PartialEq, Eq)]
pub struct NextPage {
    /// The unique number of its use.
    pub uniq: u64,
    /// Its index in the file, from 0.
    pub index: u32,
    /// Whether a new use takes the file over with it.
    pub enters: bool,
}

/// A closed use that is not backed up.
#[derive(Clone, Copy, Debug, PartialEq, Eq)]
pub struct Use {
    /// The unique number.
    pub uniq: u64,
    /// How many pages are written.
    pub pages: u32,
    /// The position of the first record.
    pub first: u64,
    /// The position of the last record.
    pub last: u64,
}

/// The numbers that a ring starts with.
#[derive(Clone, Copy, Debug, PartialEq, Eq)]
pub struct RingStart {
    /// The incarnation of the installation, which written pages get.
    pub incarnation: u64,
    /// The unique number of the current file by the anchor.
    pub uniq: u64,
    /// The uses up to this one are backed up.
    pub backed: u64,
    /// No position below this one is needed from the last checkpoint on.
    pub need: u64,
    /// The position of the next record.
    pub next: u64,
}
