//! The reading of a log page that stands in the ring.

ghost use Rattle.std.specs.Prelude.{◌≡◌, ◌<◌, IsErrOf, MatchBool, OnOk, Some, ℕ};
ghost use Rattle.ol_record.specs.PageReading.{page_at};
ghost use Rattle.ol_record.specs.declared.head.LogHead.{LogHead as HeadValue};
ghost use Rattle.ol_ports.specs.Disk.{page_list, seen};
ghost use Rattle.ol_loglog.specs.PageReads.{HasReadCause, IsPageOf, IsSpelling, IsWrongPage, TellOnePage};

use ol_log_places::Stood;
use ol_ports::Disk;
use ol_record::{LogHead, PAGE_LENGTH, log_head};

/// Why a log page was not read.
#[derive(Clone, Copy, Debug, PartialEq, Eq)]
pub enum LogReadFault {
    /// The bytes of this page are no log page, or one with another unique number, index, first position or count than
    /// the ring has there.
    Bad { chunk: u8, page: u32 },
    /// The read failed.
    Failed,
}

/// Whether two heads tell one page.
fn tell_one_page(found: LogHead, head: LogHead) -> bool
    ensures { MatchBool result (TellOnePage found head) (TellOnePage found head → ⊥) }
{
    found.uniq == head.uniq
        && found.index == head.index
        && found.first == head.first
        && found.count == head.count
}

/// Whether the bytes are a log page that a head tells.
fn is_page_of(page: &[u8; PAGE_LENGTH], head: LogHead) -> bool
    ensures right { MatchBool result (IsPageOf head page.now) (IsWrongPage head page.now) }
    ensures spelled { IsSpelling page.now }
{
    match log_head(page) {
        Some(found) => tell_one_page(found, head),
        None => false,
    }
}

/// Reads the page that stands here.
///
/// `Bad` names it where its bytes are not the page that its head tells; `Failed` comes only where the count of faults of
/// its chunk rose.
pub(crate) fn read_page<D: Disk>(
    disk: &mut D,
    stood: Stood,
    buf: &mut [u8; PAGE_LENGTH],
) -> Result<(), LogReadFault>
    requires { stood.page < D.sizes disk.old stood.chunk }
    ensures right { OnOk result (IsPageOf stood.head buf.new) }
    ensures spelled { OnOk result (IsSpelling buf.new) }
    ensures bad { (chunk page : ℕ) → IsErrOf result (LogReadFault.Bad chunk page) → (chunk ≡ stood.chunk) × (page ≡ stood.page) × IsWrongPage stood.head buf.new × IsSpelling buf.new }
    ensures bytes { D.tells → (IsErrOf result LogReadFault.Failed → ⊥) → buf.new ≡ page_list (seen (D.past disk.old)) stood.chunk stood.page }
    ensures past { D.tells → D.past disk.new ≡ D.past disk.old }
    ensures sizes { D.sizes disk.new ≡ D.sizes disk.old }
    ensures cause { HasReadCause stood.chunk (D.fault_counts disk.old) (D.fault_counts disk.new) result }
{
    match disk.read(stood.chunk, stood.page, buf) {
        Ok(()) => {}
        Err(_) => return Err(LogReadFault::Failed),
    }
    if is_page_of(buf, stood.head) {
        Ok(())
    } else {
        Err(LogReadFault::Bad {
            chunk: stood.chunk,
            page: stood.page,
        })
    }
}
