//! The command `init`: a configuration is read, and the disk is formatted for it.

ghost use Rattle.std.specs.Prelude.{◌≡◌};
ghost use Rattle.ol_ports.specs.Stops.{Stops};
ghost use Rattle.ol_online.specs.Initing.{EndsConfig, EndsInit, IsInitBetween, LeavesDisk, config_limit, status_of_format};
ghost use Rattle.ol_online.specs.Opening.{HasDiskCause};
ghost use Rattle.ol_online.specs.Sources.{TakesTo, status_in};

use crate::status::Status;
use ol_chunks::{ChunkTable, ConfigFault, parse_config};
use ol_format::{FormatFault, format};
use ol_ports::{Disk, ReadError, Source, read_all};
use std::alloc::Global;

/// The most bytes that are read of a configuration: one more than any has.
const CONFIG_LIMIT: usize = 1025;

/// Formats a disk for the configuration that a source has.
///
/// `ReadFault` comes where a read of the source failed, and `BadConfig` names the first line that is off the grammar or
/// breaks a limit. The disk is not touched then. `TooSmall` and `DiskFault` come as in the formatting of the disk,
/// `NoMemory` where memory for the bytes of the configuration was refused.
pub(crate) fn init<D: Disk, S: Source>(
    alloc: Global,
    disk: &mut D,
    source: &mut S,
) -> Result<(), Status>
    ensures ended { EndsInit (S.left source.old) (S.fault_count source.old) (S.fault_count source.new) D.tells (D.sizes disk.old) (D.past disk.new) result }
    ensures reads { TakesTo config_limit (S.left source.old) (S.left source.new) (status_in result) }
    ensures untouched { LeavesDisk result disk.old disk.new }
    ensures stops { D.tells → Stops (D.past disk.old) (D.past disk.new) (IsInitBetween (S.left source.old) (D.past disk.old)) }
    ensures cause { HasDiskCause (D.fault_counts disk.old) (D.fault_counts disk.new) result }
    ensures sizes { D.sizes disk.new ≡ D.sizes disk.old }
{
    match read_config(alloc, source) {
        Ok(table) => match format(disk, &table) {
            Ok(()) => Ok(()),
            Err(fault) => Err(status_of(fault)),
        },
        Err(status) => Err(status),
    }
}

/// Reads a configuration.
fn read_config<S: Source>(alloc: Global, source: &mut S) -> Result<ChunkTable, Status>
    ensures ended { EndsConfig (S.left source.old) (S.fault_count source.old) (S.fault_count source.new) result }
    ensures reads { TakesTo config_limit (S.left source.old) (S.left source.new) (status_in result) }
{
    match read_all(alloc, source, CONFIG_LIMIT) {
        Ok(text) => match parse_config(&text) {
            Ok(table) => Ok(table),
            Err(ConfigFault::BadConfig { line }) => Err(Status::BadConfig { line }),
        },
        Err(ReadError::Failed) => Err(Status::ReadFault),
        Err(ReadError::NoMemory) => Err(Status::NoMemory),
    }
}

/// The status of a disk that was not formatted.
fn status_of(fault: FormatFault) -> Status
    ensures { result ≡ status_of_format fault }
{
    match fault {
        FormatFault::TooSmall { chunk } => Status::TooSmall { chunk },
        FormatFault::DiskFault { chunk } => Status::DiskFault { chunk },
    }
}
