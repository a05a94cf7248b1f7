//! The reading of the newest anchor.

ghost use Rattle.std.specs.Prelude.{◌≡◌, ◌≤◌, ℕ, IfOk, Ok};
ghost use Rattle.ol_values.specs.Config.{config_text};
ghost use Rattle.ol_chunks.specs.Limits.{IsConfig};
ghost use Rattle.ol_chunks.specs.Reading.{config_in_text};
ghost use Rattle.ol_format.specs.First.{AreLarge, chunks_of};
ghost use Rattle.ol_ports.specs.Disk.{seen};
ghost use Rattle.ol_reserve.specs.Anchor.{IsAnchor, anchor_bytes};
ghost use Rattle.ol_reserve.specs.Pair.{IsSpelled, there};
ghost use Rattle.ol_reserve.specs.declared.anchor.Anchor.{Anchor as AnchorValue};
ghost use Rattle.ol_anchor_opening.specs.Opening.{HasAnchorCause, IsNewestRead, IsRead, OpensOf, ReadsTo, fault_of_reserve};

use ol_chunks::{ChunkTable, parse_config};
use ol_format::first_small;
use ol_ports::{Disk, PAGE_LENGTH};
use ol_reserve::{Anchor, Pair, ReserveFault};

/// The state of an anchor of an installation that is being restored.
const RESTORING: u8 = 2;

/// Why the anchor of a disk was not opened.
#[derive(Clone, Copy, Debug, PartialEq, Eq)]
pub enum AnchorFault {
    /// Neither page of the anchor pair is open: the disk was never formatted, or its formatting did not end.
    Blank,
    /// The newest anchor is of an installation that is being restored.
    Restoring,
    /// This page of the pair is open and holds no anchor that an opening takes, or page 1 has the serial of page 0; of two such
    /// pages the first.
    BadDisk { chunk: u8, page: u32 },
    /// A read of the pair, in this chunk, failed.
    DiskFault { chunk: u8 },
    /// This chunk, the first such, has fewer pages than the configuration says.
    TooSmall { chunk: u8 },
}

/// Reads the newest anchor of a disk, and gives it with the table of its configuration: of an installation on line, whose chunks
/// the disk has. Nothing is written, and no memory is taken.
///
/// `Blank` comes exactly where neither page of the pair is open, and `Restoring` where the newest anchor is of an installation that
/// is being restored; `BadDisk` where an open page is damaged, of two such pages the first; `TooSmall` names the first chunk that
/// has fewer pages than the configuration says, the temporary one last; `DiskFault` comes only where the count of faults of chunk 0
/// rose.
pub fn read_anchor<D: Disk>(disk: &mut D) -> Result<(Anchor, ChunkTable), AnchorFault>
    ensures read { IsRead D.tells (there (D.sizes disk.old) (seen (D.past disk.old))) (D.sizes disk.old) result }
    ensures newest { D.tells → IfOk result (λ r. IsNewestRead (there (D.sizes disk.old) (seen (D.past disk.old))) (seen (D.past disk.old)) r.0) }
    ensures past { D.tells → D.past disk.new ≡ D.past disk.old }
    ensures sizes { D.sizes disk.new ≡ D.sizes disk.old }
    ensures cause { HasAnchorCause (D.fault_counts disk.old) (D.fault_counts disk.new) result }
{
    let mut page = [0; PAGE_LENGTH];
    match Pair::newest(disk, &mut page) {
        Ok(()) => open_page(disk, &page),
        Err(fault) => Err(fault_of(fault)),
    }
}

/// The fault of a pair that gives no anchor.
fn fault_of(fault: ReserveFault) -> AnchorFault
    ensures { result ≡ fault_of_reserve fault }
{
    match fault {
        ReserveFault::Blank => AnchorFault::Blank,
        ReserveFault::BadDisk { chunk, page } => AnchorFault::BadDisk { chunk, page },
        ReserveFault::DiskFault { chunk } => AnchorFault::DiskFault { chunk },
    }
}

/// The anchor of a page and the table of its configuration, whose chunks the disk has.
fn open_page<D: Disk>(
    disk: &D,
    page: &[u8; PAGE_LENGTH],
) -> Result<(Anchor, ChunkTable), AnchorFault>
    requires { IsSpelled page.now }
    ensures ends { ReadsTo (D.sizes disk.now) result }
    ensures opens { (a : AnchorValue) → IsAnchor a → page.now ≡ anchor_bytes 1 a → OpensOf (D.sizes disk.now) a result }
{
    // the pair gives the bytes of an anchor alone
    let Ok(anchor) = Anchor::decode(page) else {
        unreachable!()
    };
    if anchor.state == RESTORING {
        return Err(AnchorFault::Restoring);
    }
    let table = table_of(&anchor);
    match first_small(disk, &table) {
        None => Ok((anchor, table)),
        Some(chunk) => Err(AnchorFault::TooSmall { chunk }),
    }
}

/// The table of the configuration of an anchor.
fn table_of(anchor: &Anchor) -> ChunkTable
    requires { IsAnchor anchor.now }
    ensures table { config_in_text anchor.now.text ≡ Ok result }
    ensures text { anchor.now.text ≡ config_text result }
    ensures config { IsConfig result }
    ensures pair { (sizes : ℕ → ℕ) → AreLarge sizes result (chunks_of result) → 2 ≤ sizes 0 }
{
    // the text of an anchor is a configuration
    let Ok(table) = parse_config(anchor.text.bytes()) else {
        unreachable!()
    };
    table
}
