//! Why a disk is not opened.

ghost use Rattle.std.specs.Prelude.{◌≡◌};
ghost use Rattle.ol_opening.specs.Faults.{fault_of_anchor, fault_of_log, fault_of_pages};

use ol_anchor_opening::AnchorFault;
use ol_log_opening::LogOpenFault;
use ol_page_opening::PageOpenFault;

/// Why a disk has no installation on line.
#[derive(Clone, Copy, Debug, PartialEq, Eq)]
pub enum NotReady {
    /// Neither page of the anchor pair is open: the disk was never formatted, or its formatting did not end.
    Blank,
    /// The newest anchor is of an installation that is being restored.
    Restoring,
}

/// Why a disk was not opened.
#[derive(Clone, Copy, Debug, PartialEq, Eq)]
pub enum OpenFault {
    /// There is no installation on line.
    NotReady { state: NotReady },
    /// This chunk, the first such, has fewer pages than the configuration of the newest anchor says.
    TooSmall { chunk: u8 },
    /// This page of the anchor pair, the log or the physical log is not what an opening takes.
    BadDisk { chunk: u8, page: u32 },
    /// A read from this chunk failed.
    DiskFault { chunk: u8 },
    /// A write or a sync of data pages failed. The disk may be opened again.
    Failed,
    /// Memory was refused.
    NoMemory,
}

/// The fault of a disk that gives no anchor.
pub(crate) fn of_anchor(fault: AnchorFault) -> OpenFault
    ensures { result ≡ fault_of_anchor fault }
{
    match fault {
        AnchorFault::Blank => OpenFault::NotReady {
            state: NotReady::Blank,
        },
        AnchorFault::Restoring => OpenFault::NotReady {
            state: NotReady::Restoring,
        },
        AnchorFault::BadDisk { chunk, page } => OpenFault::BadDisk { chunk, page },
        AnchorFault::DiskFault { chunk } => OpenFault::DiskFault { chunk },
        AnchorFault::TooSmall { chunk } => OpenFault::TooSmall { chunk },
    }
}

/// The fault of a disk that gives no log.
pub(crate) fn of_log(fault: LogOpenFault) -> OpenFault
    ensures { result ≡ fault_of_log fault }
{
    match fault {
        LogOpenFault::BadDisk { chunk, page } => OpenFault::BadDisk { chunk, page },
        LogOpenFault::DiskFault { chunk } => OpenFault::DiskFault { chunk },
        LogOpenFault::NoMemory => OpenFault::NoMemory,
    }
}

/// The fault of a disk that gives no pages.
pub(crate) fn of_pages(fault: PageOpenFault) -> OpenFault
    ensures { result ≡ fault_of_pages fault }
{
    match fault {
        PageOpenFault::BadDisk { chunk, page } => OpenFault::BadDisk { chunk, page },
        PageOpenFault::DiskFault { chunk } => OpenFault::DiskFault { chunk },
        PageOpenFault::Failed => OpenFault::Failed,
        PageOpenFault::NoMemory => OpenFault::NoMemory,
    }
}
