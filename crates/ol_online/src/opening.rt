//! The opening of a disk for a command: the configuration of its newest anchor.

ghost use Rattle.std.specs.Prelude.{◌≡◌, ◌≢◌, IfErr, IfOk};
ghost use Rattle.ol_chunks.specs.Limits.{IsConfig};
ghost use Rattle.ol_ports.specs.Disk.{seen};
ghost use Rattle.ol_reserve.specs.Pair.{there};
ghost use Rattle.ol_online.specs.Opening.{HasDiskCause, IsOpening, status_of_anchor};

use crate::status::{NotReady, Status};
use ol_anchor_opening::{AnchorFault, read_anchor};
use ol_chunks::ChunkTable;
use ol_ports::Disk;

/// Reads the newest anchor of a disk, and gives the table of its configuration. It takes no memory.
///
/// `NotReady` comes where no page of the anchor pair is open, or the newest anchor is of an installation that is being
/// restored; `BadDisk` where an open page is damaged, of two such pages the first; `TooSmall` names the first chunk that has
/// fewer pages than the configuration says; `DiskFault` comes only where the count of faults of chunk 0 rose.
pub(crate) fn open<D: Disk>(disk: &mut D) -> Result<ChunkTable, Status>
    ensures ended { IsOpening D.tells (there (D.sizes disk.old) (seen (D.past disk.old))) (D.sizes disk.old) result }
    ensures config { IfOk result IsConfig }
    ensures no_write { IfErr result (λ status. status ≢ Status.WriteFault) }
    ensures cause { HasDiskCause (D.fault_counts disk.old) (D.fault_counts disk.new) result }
    ensures past { D.tells → D.past disk.new ≡ D.past disk.old }
    ensures sizes { D.sizes disk.new ≡ D.sizes disk.old }
{
    match read_anchor(disk) {
        Ok((_, table)) => Ok(table),
        Err(fault) => Err(status_of(fault)),
    }
}

/// The status of a disk that is not opened.
fn status_of(fault: AnchorFault) -> Status
    ensures value { result ≡ status_of_anchor fault }
    ensures no_write { result ≢ Status.WriteFault }
{
    match fault {
        AnchorFault::Blank => Status::NotReady {
            state: NotReady::Blank,
        },
        AnchorFault::Restoring => Status::NotReady {
            state: NotReady::Restoring,
        },
        AnchorFault::BadDisk { chunk, page } => Status::BadDisk { chunk, page },
        AnchorFault::DiskFault { chunk } => Status::DiskFault { chunk },
        AnchorFault::TooSmall { chunk } => Status::TooSmall { chunk },
    }
}
