//! The pair of reserved pages that holds the anchor.

ghost use Rattle.std.specs.Prelude.{◌≡◌, ◌<◌, ◌≤◌, ℕ, None, Option, Some, IfErr, IfOk, IsErrOf, OnOk, drop, length};
ghost use Rattle.ol_ports.specs.Causes.{HasChunkCause};
ghost use Rattle.ol_ports.specs.Disk.{Bytes, page_list, seen};
ghost use Rattle.ol_ports.specs.Frames.{FramedIn, ReadsOutside};
ghost use Rattle.ol_ports.specs.Stops.{Stops};
ghost use Rattle.ol_reserve.specs.Anchor.{IsAnchor, anchor_bytes};
ghost use Rattle.ol_reserve.specs.Pair.{AreLow, HasFaultCause, HasTarget, IsAbove, IsAnswer, IsDamaged, IsOneOf, IsReady, IsReadyAt, IsSpelled, IsSpelledIf, IsSpoilt, IsStaged, IsTarget, IsTold, Newest, TellsPage, is_pair, serial_in, shut_target, target_in, there};
ghost use Rattle.ol_reserve.specs.declared.anchor.Anchor.{Anchor as AnchorValue};

use crate::{Anchor, AnchorFault};
use ol_bytes::number;
use ol_ports::{Disk, Failed, PAGE_LENGTH, write_synced};

/// The chunk of the pair, whose pages 0 and 1 it is.
const CHUNK: u8 = 0;

/// The gate byte of a page that counts.
const OPEN: u8 = 1;

/// The gate byte of a page that doesn't.
const SHUT: u8 = 0;

/// Why the pair gives no anchor, or takes none.
#[derive(Clone, Copy, Debug, PartialEq, Eq)]
pub enum ReserveFault {
    /// Neither page is open: the disk was never formatted, or its formatting did not end.
    Blank,
    /// An open page is not an anchor, or one with numbers that no opening takes, or page 1 has the serial of page 0.
    BadDisk { chunk: u8, page: u32 },
    /// A call of the disk failed.
    DiskFault { chunk: u8 },
}

/// What a failed call of the disk is answered as.
const FAULT: ReserveFault = ReserveFault::DiskFault { chunk: CHUNK };

/// The page that the next anchor goes to, and whether its gate is open.
#[derive(Clone, Copy)]
pub(crate) struct Target {
    pub(crate) page: u32,
    pub(crate) is_open: bool,
}

/// The pair of reserved pages at the front of chunk 0. Each anchor is written to the page that does not hold the
/// newest one, its body behind a closed gate, so that a stop at any moment leaves the newest anchor whole.
pub struct Pair;

impl Pair {
    /// Reads the newest anchor of the pair, whose bytes are then in `buf`. A page that the disk doesn't have counts as one
    /// with a closed gate.
    ///
    /// `Blank` comes exactly where neither gate is open, `BadDisk` where an open page is not an anchor, has a number above those
    /// that an opening takes (`Anchor::is_low`), or page 1 has the serial of page 0; of two such pages it names page 0.
    /// `DiskFault` comes only where the count of faults of chunk 0 rose. After a refusal `buf` may hold anything. It takes no
    /// memory.
    pub fn newest<D: Disk>(disk: &mut D, buf: &mut [u8; PAGE_LENGTH]) -> Result<(), ReserveFault>
        ensures ok { D.tells → OnOk result (IsTold (there (D.sizes disk.old) (seen (D.past disk.old))) buf.new) }
        ensures anchor { OnOk result (IsSpelled buf.new) }
        ensures blank { D.tells → IsErrOf result ReserveFault.Blank → Newest (there (D.sizes disk.old) (seen (D.past disk.old))) None }
        ensures bad { D.tells → (chunk page : ℕ) → IsErrOf result (ReserveFault.BadDisk chunk page) → IsDamaged (there (D.sizes disk.old) (seen (D.past disk.old))) page }
        ensures first { D.tells → (chunk : ℕ) → IsErrOf result (ReserveFault.BadDisk chunk 1) → IsSpoilt (there (D.sizes disk.old) (seen (D.past disk.old))) 0 → ⊥ }
        ensures place { (chunk page : ℕ) → IsErrOf result (ReserveFault.BadDisk chunk page) → (chunk ≡ 0) × (page < 2) }
        ensures answer { D.tells → AreLow (there (D.sizes disk.old) (seen (D.past disk.old))) → (now : Option AnchorValue) → Newest (there (D.sizes disk.old) (seen (D.past disk.old))) now → IsAnswer now buf.new result }
        ensures past { D.tells → D.past disk.new ≡ D.past disk.old }
        ensures sizes { D.sizes disk.new ≡ D.sizes disk.old }
        ensures cause { HasFaultCause (D.fault_counts disk.old) (D.fault_counts disk.new) result }
    {
        let first = match read_page(disk, 0, buf) {
            Ok(serial) => serial,
            Err(fault) => return Err(fault),
        };
        let mut other = [0; PAGE_LENGTH];
        match read_page(disk, 1, &mut other) {
            Ok(second) => pick(first, second, buf, &other),
            Err(fault) => Err(fault),
        }
    }

    /// Writes an anchor, with its serial, to the page that does not hold the newest one, page 0 where neither gate is
    /// open. The serial is above that of the newest anchor.
    ///
    /// `DiskFault` of chunk 0 comes only where its count of faults rose. The newest anchor is then the one before or this one.
    pub fn write<D: Disk>(disk: &mut D, anchor: &Anchor) -> Result<(), ReserveFault>
        requires size { 2 ≤ D.sizes disk.old 0 }
        ensures stops { D.tells → (now : Option AnchorValue) → IsReady (D.past disk.old) now → IsAnchor anchor.now → IsAbove now anchor.now.serial → Stops (D.past disk.old) (D.past disk.new) (IsOneOf now (Some anchor.now)) }
        ensures ok { D.tells → (now : Option AnchorValue) → IsReady (D.past disk.old) now → IsAnchor anchor.now → IsAbove now anchor.now.serial → OnOk result (IsReady (D.past disk.new) (Some anchor.now)) }
        ensures place { D.tells → IsReady (D.past disk.old) None → IsAnchor anchor.now → OnOk result (IsReadyAt (D.past disk.new) 0 anchor.now) }
        ensures frame { D.tells → Stops (D.past disk.old) (D.past disk.new) (FramedIn (D.past disk.old) is_pair) }
        ensures reads { D.tells → OnOk result (ReadsOutside (D.past disk.old) (D.past disk.new) is_pair) }
        ensures sizes { D.sizes disk.new ≡ D.sizes disk.old }
        ensures cause { HasChunkCause 0 (D.fault_counts disk.old) (D.fault_counts disk.new) result }
        ensures fault { IfErr result (λ fault. fault ≡ ReserveFault.DiskFault 0) }
    {
        let mut page = [0; PAGE_LENGTH];
        anchor.encode(&mut page);
        let (_, body) = page.split_at(1);
        match find_target(disk) {
            Ok(target) => match put(disk, target, body) {
                Ok(()) => Ok(()),
                Err(_) => Err(FAULT),
            },
            Err(_) => Err(FAULT),
        }
    }
}

/// Puts the page with the newest anchor into `buf`, which holds page 0. The serials are those of the pages that are open.
fn pick(
    first: Option<u64>,
    second: Option<u64>,
    buf: &mut [u8; PAGE_LENGTH],
    other: &[u8; PAGE_LENGTH],
) -> Result<(), ReserveFault>
    ensures ok { (d : Bytes) → TellsPage d 0 buf.old first → TellsPage d 1 other.now second → OnOk result (IsTold d buf.new) }
    ensures blank { (d : Bytes) → TellsPage d 0 buf.old first → TellsPage d 1 other.now second → IsErrOf result ReserveFault.Blank → Newest d None }
    ensures bad { (d : Bytes) → TellsPage d 0 buf.old first → TellsPage d 1 other.now second → (chunk page : ℕ) → IsErrOf result (ReserveFault.BadDisk chunk page) → IsDamaged d page }
    ensures place { (chunk page : ℕ) → IsErrOf result (ReserveFault.BadDisk chunk page) → (chunk ≡ 0) × (page < 2) }
    ensures anchor { IsSpelledIf first buf.old → IsSpelledIf second other.now → OnOk result (IsSpelled buf.new) }
    ensures fault { (chunk : ℕ) → IsErrOf result (ReserveFault.DiskFault chunk) → ⊥ }
{
    match (first, second) {
        (None, None) => Err(ReserveFault::Blank),
        (Some(_), None) => Ok(()),
        (None, Some(_)) => {
            *buf = *other;
            Ok(())
        }
        (Some(a), Some(b)) => {
            if a == b {
                return Err(ReserveFault::BadDisk {
                    chunk: CHUNK,
                    page: 1,
                });
            }
            if a > b {
                return Ok(());
            }
            *buf = *other;
            Ok(())
        }
    }
}

/// Reads a page of the pair, and gives its anchor's serial; None where its gate is closed or the disk doesn't have it.
fn read_page<D: Disk>(
    disk: &mut D,
    page: u32,
    buf: &mut [u8; PAGE_LENGTH],
) -> Result<Option<u64>, ReserveFault>
    requires { page < 2 }
    ensures told { D.tells → IfOk result (TellsPage (there (D.sizes disk.old) (seen (D.past disk.old))) page buf.new) }
    ensures bad { D.tells → (chunk at : ℕ) → IsErrOf result (ReserveFault.BadDisk chunk at) → IsDamaged (there (D.sizes disk.old) (seen (D.past disk.old))) at }
    ensures place { (chunk at : ℕ) → IsErrOf result (ReserveFault.BadDisk chunk at) → (chunk ≡ 0) × (at ≡ page) }
    ensures anchor { IfOk result (λ serial. IsSpelledIf serial buf.new) }
    ensures blank { IsErrOf result ReserveFault.Blank → ⊥ }
    ensures past { D.tells → D.past disk.new ≡ D.past disk.old }
    ensures sizes { D.sizes disk.new ≡ D.sizes disk.old }
    ensures cause { HasFaultCause (D.fault_counts disk.old) (D.fault_counts disk.new) result }
{
    if page >= disk.size(CHUNK) {
        return Ok(None);
    }
    match disk.read(CHUNK, page, buf) {
        Ok(()) => test_page(page, buf),
        Err(_) => Err(FAULT),
    }
}

/// The serial of the anchor of a page; None where its gate is closed.
fn test_page(page: u32, bytes: &[u8; PAGE_LENGTH]) -> Result<Option<u64>, ReserveFault>
    ensures told { (d : Bytes) → bytes.now ≡ page_list d 0 page → IfOk result (TellsPage d page bytes.now) }
    ensures bad { (d : Bytes) → bytes.now ≡ page_list d 0 page → (chunk at : ℕ) → IsErrOf result (ReserveFault.BadDisk chunk at) → IsDamaged d at }
    ensures place { (chunk at : ℕ) → IsErrOf result (ReserveFault.BadDisk chunk at) → (chunk ≡ 0) × (at ≡ page) }
    ensures anchor { IfOk result (λ serial. IsSpelledIf serial bytes.now) }
    ensures blank { IsErrOf result ReserveFault.Blank → ⊥ }
    ensures fault { (chunk : ℕ) → IsErrOf result (ReserveFault.DiskFault chunk) → ⊥ }
{
    if bytes[0] != OPEN {
        return Ok(None);
    }
    match Anchor::decode(bytes) {
        Ok(anchor) => {
            if anchor.is_low() {
                Ok(Some(anchor.serial))
            } else {
                Err(ReserveFault::BadDisk { chunk: CHUNK, page })
            }
        }
        Err(AnchorFault::BadAnchor) => Err(ReserveFault::BadDisk { chunk: CHUNK, page }),
    }
}

/// Writes a body behind a closed gate to the page, and opens it.
fn put<D: Disk>(disk: &mut D, target: Target, body: &[u8]) -> Result<(), Failed>
    requires size { 2 ≤ D.sizes disk.old 0 }
    requires pair { target.page < 2 }
    requires body { length body.now ≡ 2047 }
    ensures stops { D.tells → (now : Option AnchorValue) (a : AnchorValue) → HasTarget (D.past disk.old) now target → body.now ≡ drop 1 (anchor_bytes 1 a) → IsAnchor a → IsAbove now a.serial → Stops (D.past disk.old) (D.past disk.new) (IsOneOf now (Some a)) }
    ensures ok { D.tells → (now : Option AnchorValue) (a : AnchorValue) → HasTarget (D.past disk.old) now target → body.now ≡ drop 1 (anchor_bytes 1 a) → IsAnchor a → IsAbove now a.serial → OnOk result (IsReadyAt (D.past disk.new) target.page a) }
    ensures frame { D.tells → Stops (D.past disk.old) (D.past disk.new) (FramedIn (D.past disk.old) is_pair) }
    ensures reads { D.tells → OnOk result (ReadsOutside (D.past disk.old) (D.past disk.new) is_pair) }
    ensures sizes { D.sizes disk.new ≡ D.sizes disk.old }
    ensures cause { HasChunkCause 0 (D.fault_counts disk.old) (D.fault_counts disk.new) result }
{
    match stage(disk, target, body) {
        Ok(()) => open(disk, target.page),
        Err(failed) => Err(failed),
    }
}

/// Closes the gate of the page, where it is open, and writes the body behind it.
fn stage<D: Disk>(disk: &mut D, target: Target, body: &[u8]) -> Result<(), Failed>
    requires size { 2 ≤ D.sizes disk.old 0 }
    requires pair { target.page < 2 }
    requires body { length body.now ≡ 2047 }
    ensures stops { D.tells → (now : Option AnchorValue) → HasTarget (D.past disk.old) now target → Stops (D.past disk.old) (D.past disk.new) (λ d. Newest d now) }
    ensures ok { D.tells → (now : Option AnchorValue) → HasTarget (D.past disk.old) now target → OnOk result (IsStaged (D.past disk.new) now target.page body.now) }
    ensures frame { D.tells → Stops (D.past disk.old) (D.past disk.new) (FramedIn (D.past disk.old) is_pair) }
    ensures reads { D.tells → OnOk result (ReadsOutside (D.past disk.old) (D.past disk.new) is_pair) }
    ensures sizes { D.sizes disk.new ≡ D.sizes disk.old }
    ensures cause { HasChunkCause 0 (D.fault_counts disk.old) (D.fault_counts disk.new) result }
{
    match close(disk, target) {
        Ok(()) => write_body(disk, target.page, body),
        Err(failed) => Err(failed),
    }
}

/// Closes the gate of the page, where it is open.
fn close<D: Disk>(disk: &mut D, target: Target) -> Result<(), Failed>
    requires size { 2 ≤ D.sizes disk.old 0 }
    requires pair { target.page < 2 }
    ensures stops { D.tells → (now : Option AnchorValue) → HasTarget (D.past disk.old) now target → Stops (D.past disk.old) (D.past disk.new) (λ d. Newest d now) }
    ensures ok { D.tells → (now : Option AnchorValue) → HasTarget (D.past disk.old) now target → OnOk result (HasTarget (D.past disk.new) now (shut_target target.page)) }
    ensures frame { D.tells → Stops (D.past disk.old) (D.past disk.new) (FramedIn (D.past disk.old) is_pair) }
    ensures reads { D.tells → OnOk result (ReadsOutside (D.past disk.old) (D.past disk.new) is_pair) }
    ensures sizes { D.sizes disk.new ≡ D.sizes disk.old }
    ensures cause { HasChunkCause 0 (D.fault_counts disk.old) (D.fault_counts disk.new) result }
{
    if target.is_open {
        write_synced(disk, CHUNK, target.page, 0, &[SHUT])
    } else {
        Ok(())
    }
}

/// Writes a body behind the closed gate of the page.
fn write_body<D: Disk>(disk: &mut D, page: u32, body: &[u8]) -> Result<(), Failed>
    requires size { 2 ≤ D.sizes disk.old 0 }
    requires pair { page < 2 }
    requires body { length body.now ≡ 2047 }
    ensures stops { D.tells → (now : Option AnchorValue) → HasTarget (D.past disk.old) now (shut_target page) → Stops (D.past disk.old) (D.past disk.new) (λ d. Newest d now) }
    ensures ok { D.tells → (now : Option AnchorValue) → HasTarget (D.past disk.old) now (shut_target page) → OnOk result (IsStaged (D.past disk.new) now page body.now) }
    ensures frame { D.tells → Stops (D.past disk.old) (D.past disk.new) (FramedIn (D.past disk.old) is_pair) }
    ensures reads { D.tells → OnOk result (ReadsOutside (D.past disk.old) (D.past disk.new) is_pair) }
    ensures sizes { D.sizes disk.new ≡ D.sizes disk.old }
    ensures cause { HasChunkCause 0 (D.fault_counts disk.old) (D.fault_counts disk.new) result }
{
    write_synced(disk, CHUNK, page, 1, body)
}

/// Opens the gate of the page, behind which an anchor stands.
fn open<D: Disk>(disk: &mut D, page: u32) -> Result<(), Failed>
    requires size { 2 ≤ D.sizes disk.old 0 }
    requires pair { page < 2 }
    ensures stops { D.tells → (now : Option AnchorValue) (a : AnchorValue) → IsStaged (D.past disk.old) now page (drop 1 (anchor_bytes 1 a)) → IsAnchor a → IsAbove now a.serial → Stops (D.past disk.old) (D.past disk.new) (IsOneOf now (Some a)) }
    ensures ok { D.tells → (now : Option AnchorValue) (a : AnchorValue) → IsStaged (D.past disk.old) now page (drop 1 (anchor_bytes 1 a)) → IsAnchor a → IsAbove now a.serial → OnOk result (IsReadyAt (D.past disk.new) page a) }
    ensures frame { D.tells → Stops (D.past disk.old) (D.past disk.new) (FramedIn (D.past disk.old) is_pair) }
    ensures reads { D.tells → OnOk result (ReadsOutside (D.past disk.old) (D.past disk.new) is_pair) }
    ensures sizes { D.sizes disk.new ≡ D.sizes disk.old }
    ensures cause { HasChunkCause 0 (D.fault_counts disk.old) (D.fault_counts disk.new) result }
{
    write_synced(disk, CHUNK, page, 0, &[OPEN])
}

/// The page that the next anchor goes to.
fn find_target<D: Disk>(disk: &mut D) -> Result<Target, Failed>
    requires { 2 ≤ D.sizes disk.old 0 }
    ensures found { D.tells → (now : Option AnchorValue) → Newest (seen (D.past disk.old)) now → IfOk result (IsTarget (seen (D.past disk.old)) now) }
    ensures blank { D.tells → Newest (seen (D.past disk.old)) None → IfOk result (λ t. t.page ≡ 0) }
    ensures pair { IfOk result (λ t. t.page < 2) }
    ensures past { D.tells → D.past disk.new ≡ D.past disk.old }
    ensures sizes { D.sizes disk.new ≡ D.sizes disk.old }
    ensures cause { HasChunkCause 0 (D.fault_counts disk.old) (D.fault_counts disk.new) result }
{
    let mut first = [0; PAGE_LENGTH];
    match disk.read(CHUNK, 0, &mut first) {
        Ok(()) => {}
        Err(failed) => return Err(failed),
    }
    let mut second = [0; PAGE_LENGTH];
    match disk.read(CHUNK, 1, &mut second) {
        Ok(()) => Ok(choose(&first, &second)),
        Err(failed) => Err(failed),
    }
}

/// Which page of a pair with these bytes the next anchor goes to.
fn choose(first: &[u8; PAGE_LENGTH], second: &[u8; PAGE_LENGTH]) -> Target
    ensures value { result ≡ target_in first.now second.now }
    ensures pair { result.page < 2 }
{
    let (page, is_open) = match (first[0] == OPEN, second[0] == OPEN) {
        (false, _) => (0, false),
        (true, false) => (1, false),
        (true, true) => (u32::from(serial(first) >= serial(second)), true),
    };
    Target { page, is_open }
}

fn serial(page: &[u8; PAGE_LENGTH]) -> u64
    ensures { result ≡ serial_in page.now }
{
    let (_, behind) = page.split_at(8);
    let (serial, _) = behind.split_at(8);
    number(serial)
}
