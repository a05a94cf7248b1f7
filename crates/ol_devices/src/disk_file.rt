//! A disk of chunk files.

ghost use Rattle.std.specs.Prelude.{◌≡◌, ◌<◌, ◌≤◌, ◌/◌, ◌+◌, ◌-◌, ◌^◌, false, [], get_or, if◌then◌else◌, is_err, length, min, replicate, slice_index, slice_set, true, IfOk};
ghost use Rattle.ol_ports.specs.Causes.{HasChunkCause, risen};
ghost use Rattle.ol_devices.specs.Files.{IsMissing, after_chunk_call, pages_at, faults_at};

use crate::device_file::{DeviceFile, sync_folder};
use crate::fault::fault;
use crate::paths::chunk_path;
use ol_ports::{Disk, Failed, NoMemory, PAGE_LENGTH};
use std::io;
use std::io::ErrorKind;

/// The greatest number of chunk files of a disk.
pub const CHUNKS: usize = 32;

/// The bytes of a page, as a distance in a file.
const PAGE_BYTES: u64 = PAGE_LENGTH as u64;

/// A disk whose chunks are the files `chunk0`, `chunk1`, .. of a folder. It tells nothing of its bytes.
#[derive(Drop)]
pub struct FileDisk {
    // The chunk files that could be opened. That of chunk 0 is locked.
    files: Vec<Option<DeviceFile>>,
    // The pages of each chunk, 0 for one that is not there.
    sizes: [u32; CHUNKS],
    // How often each chunk has failed.
    counts: [u64; CHUNKS],
    // Whether a sync of the chunk has failed.
    lost: [bool; CHUNKS],
    moment: u64,
}

// Another command holds the lock of the disk, or it can't be asked for.
#[derive(Drop)]
struct LockedOut;

impl FileDisk {
    /// The disk of the chunk files in the folder `dir`. Those that are missing or have no byte are made of as many zero
    /// pages as `pages` has for them, counted from chunk 0; any other stays as it is. The sizes are read once, here: a
    /// chunk has the whole pages of its file, and one whose file is missing or can't be opened or made has none. A file
    /// that can be read and not written is opened for reading, and each write to it fails.
    ///
    /// The file of chunk 0 is locked as long as the disk lives, and without it no other file is made. Where another disk
    /// has locked it, no chunk's size is known, the most pages are told of each, and each call fails.
    ///
    /// `NoMemory` where memory for a path or for the files is refused.
    pub fn open(rt: &HostRuntime, dir: &str, pages: &[u32]) -> Result<FileDisk, NoMemory>
        ensures unasked { IfOk result (λ disk. disk.moment ≡ 0) }
        ensures calm { IfOk result (λ disk. disk.counts ≡ replicate 32 0) }
        ensures unlost { IfOk result (λ disk. disk.lost ≡ replicate 32 false) }
    {
        let mut files = Vec::new(rt.alloc());
        let mut sizes = [0; CHUNKS];
        let mut wanted = pages;
        for (chunk, size) in sizes.iter_mut().enumerate() {
            let path = chunk_path(rt, dir, chunk)?;
            let pages = wanted.get(chunk).copied();
            let Ok(found) = open_chunk(rt, dir, &path, pages, chunk == 0) else {
                return Ok(FileDisk::locked_out(rt));
            };
            let (file, whole) = match found {
                Some((file, whole)) => (Some(file), whole),
                None => (None, 0),
            };
            if chunk == 0 && file.is_none() {
                // without the lock no other file is made
                wanted = &[];
            }
            *size = whole;
            files.push(file)?;
        }
        Ok(FileDisk::of(files, sizes))
    }

    // The disk of these files and sizes.
    fn of(files: Vec<Option<DeviceFile>>, sizes: [u32; CHUNKS]) -> FileDisk
        ensures unasked { result.moment ≡ 0 }
        ensures calm { result.counts ≡ replicate 32 0 }
        ensures unlost { result.lost ≡ replicate 32 false }
        ensures given { (result.files ≡ files) × (result.sizes ≡ sizes) }
    {
        FileDisk {
            files,
            sizes,
            counts: [0; CHUNKS],
            lost: [false; CHUNKS],
            moment: 0,
        }
    }

    // The disk that another command has locked. Its sizes lead each command to a call, which fails.
    fn locked_out(rt: &HostRuntime) -> FileDisk
        ensures unasked { result.moment ≡ 0 }
        ensures calm { result.counts ≡ replicate 32 0 }
        ensures unlost { result.lost ≡ replicate 32 false }
        ensures shut { (result.files.items ≡ []) × (result.sizes ≡ replicate 32 (2 ^ 32 - 1)) }
    {
        FileDisk::of(Vec::new(rt.alloc()), [u32::MAX; CHUNKS])
    }

    // The file of a chunk.
    fn file(&self, chunk: u8) -> io::Result<&DeviceFile>
        ensures { IsMissing self.now.files.items chunk → is_err result ≡ true }
    {
        match self.files.get(chunk as usize) {
            Some(Some(file)) => Ok(file),
            _ => Err(ErrorKind::NotFound.into()),
        }
    }
}

impl Disk for FileDisk {
    ghost use Rattle.std.specs.Prelude.{[]};
    ghost use Rattle.std.proofs.Common.{arith};

    ghost tells = { ⊥ };

    ghost past = { λ _. record { base = []; calls = [] } };

    ghost sizes = { λ d. pages_at d.sizes };

    ghost fault_counts = { λ d. faults_at d.counts };

    ghost moment = { λ d. d.moment };

    ghost counted = { λ d told. absurd told };

    ghost bounded = { λ d chunk. Prim.omega arith };

    /// The pages of a chunk, 0 for a chunk that is not there.
    fn size(&self, chunk: u8) -> u32 {
        match self.sizes.get(chunk as usize) {
            Some(pages) => *pages,
            None => 0,
        }
    }

    /// Reads a page into `buf`.
    ///
    /// `Failed` where the file can't be read or ends before the page does, or where the disk is locked elsewhere.
    fn read(&mut self, chunk: u8, page: u32, buf: &mut [u8]) -> Result<(), Failed>
        requires page { page < pages_at self.old.sizes chunk }
        requires buf { length buf.old ≡ 2048 }
        ensures sizes { pages_at self.new.sizes ≡ pages_at self.old.sizes }
        ensures moment { self.new.moment ≡ self.old.moment }
        ensures cause { HasChunkCause chunk (faults_at self.old.counts) (faults_at self.new.counts) result }

        ensures counted { self.new.counts ≡ after_chunk_call (is_err result) chunk self.old.counts }
        ensures shut { IsMissing self.old.files.items chunk → is_err result ≡ true }
    {
        match read_page(self.file(chunk), page, buf) {
            Ok(()) => Ok(()),
            Err(_) => Err(count_fault(&mut self.counts, chunk)),
        }
    }

    /// Writes bytes into a page, from an offset on.
    ///
    /// `Failed` where the file can't be written or takes only a part, or where the disk is locked elsewhere.
    fn write_at(&mut self, chunk: u8, page: u32, offset: u16, bytes: &[u8]) -> Result<(), Failed>
        requires page { page < pages_at self.old.sizes chunk }
        requires range { offset + length bytes.now ≤ 2048 }
        ensures sizes { pages_at self.new.sizes ≡ pages_at self.old.sizes }
        ensures moment { self.new.moment ≡ risen self.old.moment }
        ensures cause { HasChunkCause chunk (faults_at self.old.counts) (faults_at self.new.counts) result }

        ensures counted { self.new.counts ≡ after_chunk_call (is_err result) chunk self.old.counts }
        ensures shut { IsMissing self.old.files.items chunk → is_err result ≡ true }
    {
        self.moment = self.moment.saturating_add(1);
        match write_piece(self.file(chunk), page, offset, bytes) {
            Ok(()) => Ok(()),
            Err(_) => Err(count_fault(&mut self.counts, chunk)),
        }
    }

    /// Makes what was written to a chunk durable.
    ///
    /// `Failed` where the file can't be synced, now or at an earlier sync: the system may have let go of
    /// what it couldn't write, and wouldn't say so twice. Also where the disk is locked elsewhere.
    fn sync(&mut self, chunk: u8) -> Result<(), Failed>
        requires { 0 < pages_at self.old.sizes chunk }
        ensures sizes { pages_at self.new.sizes ≡ pages_at self.old.sizes }
        ensures moment { self.new.moment ≡ risen self.old.moment }
        ensures cause { HasChunkCause chunk (faults_at self.old.counts) (faults_at self.new.counts) result }

        ensures counted { self.new.counts ≡ after_chunk_call (is_err result) chunk self.old.counts }
        ensures shut { IsMissing self.old.files.items chunk → is_err result ≡ true }
        ensures lost { self.new.lost ≡ (if is_err result then slice_set self.old.lost chunk true else self.old.lost) }
        ensures never_again { get_or self.old.lost chunk false ≡ true → is_err result ≡ true }
    {
        self.moment = self.moment.saturating_add(1);
        let lost = self.lost[chunk as usize];
        match sync_file(self.file(chunk), lost) {
            Ok(()) => Ok(()),
            Err(_) => {
                self.lost[chunk as usize] = true;
                Err(count_fault(&mut self.counts, chunk))
            }
        }
    }

    /// The count of faults of a chunk, which stands still at the greatest `u64`; 0 for a chunk that is
    /// not there.
    fn faults(&self, chunk: u8) -> u64 {
        match self.counts.get(chunk as usize) {
            Some(count) => *count,
            None => 0,
        }
    }

    /// The number of calls of `write_at` and `sync` so far, which stands still at the greatest `u64`.
    fn calls(&self) -> u64 {
        self.moment
    }
}

// Counts a fault of a chunk.
fn count_fault(counts: &mut [u64; CHUNKS], chunk: u8) -> Failed
    requires { chunk < 32 }
    ensures counted { counts.new ≡ slice_set counts.old chunk (risen (slice_index counts.old chunk)) }
    ensures later { slice_index counts.old chunk ≤ risen (slice_index counts.old chunk) }
{
    fault(&mut counts[chunk as usize])
}

// The whole pages of a file of so many bytes, as far as a `u32` counts.
fn whole_pages(bytes: u64) -> u32
    ensures { result ≡ min (bytes / 2048) (2 ^ 32 - 1) }
{
    u32::try_from(bytes / PAGE_BYTES).unwrap_or(u32::MAX)
}

// The file of a chunk and its whole pages, None where it can't be opened or made. The first chunk's is locked before it
// is looked at, so that of two commands that make it only one goes on.
fn open_chunk(
    rt: &HostRuntime,
    dir: &str,
    path: &str,
    wanted: Option<u32>,
    is_first: bool,
) -> Result<Option<(DeviceFile, u32)>, LockedOut> {
    let Ok(file) = DeviceFile::open(rt, path, wanted.is_some()) else {
        return Ok(None);
    };
    if is_first && file.lock().is_err() {
        return Err(LockedOut);
    }
    match filled(rt, dir, &file, wanted) {
        Ok(whole) => Ok(Some((file, whole))),
        Err(_) => Ok(None),
    }
}

// The whole pages of a chunk's file. One of no bytes first gets the pages that are wanted.
fn filled(rt: &HostRuntime, dir: &str, file: &DeviceFile, wanted: Option<u32>) -> io::Result<u32> {
    match wanted {
        Some(pages) if file.length()? == 0 => fill(rt, dir, file, pages)?,
        _ => {}
    }
    Ok(whole_pages(file.length()?))
}

// Gives an empty chunk file so many zero pages, durable with its name. Where it can't, the file stays empty.
fn fill(rt: &HostRuntime, dir: &str, file: &DeviceFile, pages: u32) -> io::Result<()> {
    match fill_synced(rt, dir, file, pages) {
        Ok(()) => Ok(()),
        Err(error) => {
            // the error that came first is the one to tell
            let _ = file.set_length(0);
            Err(error)
        }
    }
}

fn fill_synced(rt: &HostRuntime, dir: &str, file: &DeviceFile, pages: u32) -> io::Result<()> {
    file.set_length(u64::from(pages) * PAGE_BYTES)?;
    file.sync_all()?;
    sync_folder(rt, dir)
}

fn read_page(file: io::Result<&DeviceFile>, page: u32, buf: &mut [u8]) -> io::Result<()>
    ensures length { length buf.new ≡ length buf.old }
    ensures shut { is_err file.entry ≡ true → is_err result ≡ true }
{
    file?.read(buf, u64::from(page) * PAGE_BYTES)
}

fn write_piece(
    file: io::Result<&DeviceFile>,
    page: u32,
    offset: u16,
    bytes: &[u8],
) -> io::Result<()>
    ensures { is_err file.entry ≡ true → is_err result ≡ true }
{
    file?.write(bytes, u64::from(page) * PAGE_BYTES + u64::from(offset))
}

fn sync_file(file: io::Result<&DeviceFile>, lost: bool) -> io::Result<()>
    ensures lost { lost ≡ true → is_err result ≡ true }
    ensures shut { is_err file.entry ≡ true → is_err result ≡ true }
{
    if lost {
        return Err(ErrorKind::Other.into());
    }
    file?.sync()
}
