//! The place of a page.

/// A data page of the configuration.
#[derive(Clone, Copy, Debug, PartialEq, Eq, Hash)]
pub struct Place {
    /// The space, from 0.
    pub space: u8,
    /// The page of the space, from 0.
    pub page: u16,
}
