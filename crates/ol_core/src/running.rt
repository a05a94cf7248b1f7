//! A running archive.

/// A running archive of level 0: its number, its cut, its low, its spaces (marked by their numbers), and how
/// many of its pages have passed.
#[derive(Clone, Copy, Debug, PartialEq, Eq)]
pub struct Running {
    pub number: u64,
    pub cut: u64,
    pub low: u64,
    pub spaces: [bool; 16],
    pub passed: u32,
}
