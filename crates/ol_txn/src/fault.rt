//! Why a lock was refused.

/// Why a lock was refused.
#[derive(Clone, Copy, Debug, PartialEq, Eq)]
pub enum LockFault {
    /// Other sessions hold the slot; this is the least of them.
    Held { holder: u8 },
    /// Memory was refused.
    NoMemory,
}
