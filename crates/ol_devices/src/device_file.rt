//! Files apart from the standard streams.

ghost use Rattle.std.specs.Prelude.{◌≡◌, ◌<ℤ◌, pos, IfOk};
ghost use Rattle.std.specs.Fd.{file_raw_fd};

use std::fs::{File, OpenOptions};
use std::io::ErrorKind;
use std::marker::Model;
use std::os::fd::AsRawFd;
use std::os::unix::fs::FileExt;
use std::{fs, io};

/// The greatest descriptor of a standard stream, that of standard error.
const STANDARD_ERROR: i32 = 2;

/// What takes the descriptors 0, 1 and 2 where the program was started without them.
#[derive(Drop)]
pub struct HeldStreams {
    // Opened for reading, so that no write to them succeeds.
    _held: [Option<File>; 3],
}

/// Holds the descriptors 0, 1 and 2 where the program was started without them, as long as the value lives. Standard
/// input is then empty, and a write to standard output or standard error fails. Call it before anything else is opened.
///
/// Where `/dev/null` can't be opened they stay closed, and a device whose file would get one of them has no such file.
pub fn hold_streams(rt: &HostRuntime) -> HeldStreams {
    HeldStreams {
        _held: [
            File::open(rt, "/dev/null").ok(),
            File::open(rt, "/dev/null").ok(),
            File::open(rt, "/dev/null").ok(),
        ],
    }
}

/// A file of a device. Its descriptor is none of the standard streams', so that what is written to those never goes into
/// it.
#[derive(Drop)]
pub(crate) struct DeviceFile {
    file: File,
}

impl Model for DeviceFile {
    ghost use Rattle.std.specs.Prelude.{ℤ, ◌<ℤ◌, pos};
    ghost use Rattle.std.specs.Fd.{file_raw_fd};

    ghost Value = { ℤ };

    ghost view = { λ f. file_raw_fd f.file };

    ghost invariant = { λ f. pos 2 <ℤ file_raw_fd f.file };
}

impl DeviceFile {
    /// Takes a file that was opened.
    ///
    /// An error where its descriptor is one of the standard streams'; the file is then closed again.
    fn new(file: File) -> io::Result<DeviceFile>
        ensures { IfOk result (λ taken. taken ≡ file_raw_fd file) }
    {
        if file.as_raw_fd() <= STANDARD_ERROR {
            return Err(ErrorKind::Other.into());
        }
        Ok(DeviceFile { file })
    }

    /// The file at a path, for reading and writing, or for reading alone where it can't be written. With `makes` one that
    /// is missing is made, of no bytes.
    ///
    /// An error where there is none, where it can't be opened for reading, or where it is a folder.
    pub(crate) fn open(rt: &HostRuntime, path: &str, makes: bool) -> io::Result<DeviceFile> {
        let mut options = OpenOptions::new();
        options.read(true).write(true).create(makes);
        match options.open(rt, path) {
            Ok(file) => DeviceFile::new(file),
            Err(_) => DeviceFile::open_to_read(rt, path),
        }
    }

    /// The file at a path, for reading.
    ///
    /// An error where it is none or can't be opened. A pipe would keep the caller waiting.
    pub(crate) fn open_to_read(rt: &HostRuntime, path: &str) -> io::Result<DeviceFile> {
        if !fs::metadata(rt, path)?.is_file() {
            return Err(ErrorKind::NotFound.into());
        }
        DeviceFile::new(File::open(rt, path)?)
    }

    /// A new file at a path, for reading and writing.
    ///
    /// An error where something is there or it can't be made.
    pub(crate) fn create_new(rt: &HostRuntime, path: &str) -> io::Result<DeviceFile> {
        DeviceFile::new(File::create_new(rt, path)?)
    }

    /// Locks the file for this process alone, as long as the value lives.
    ///
    /// An error where another one holds it, or where files can't be locked there.
    pub(crate) fn lock(&self) -> io::Result<()> {
        Ok(self.file.try_lock()?)
    }

    /// The bytes of the file.
    pub(crate) fn length(&self) -> io::Result<u64> {
        Ok(self.file.metadata()?.len())
    }

    /// Cuts the file off behind so many bytes, or fills it up to them with zeros.
    pub(crate) fn set_length(&self, bytes: u64) -> io::Result<()> {
        self.file.set_len(bytes)
    }

    /// Fills `buf` with the bytes at a place.
    pub(crate) fn read(&self, buf: &mut [u8], at: u64) -> io::Result<()> {
        self.file.read_exact_at(buf, at)
    }

    /// Writes bytes at a place, all of them.
    pub(crate) fn write(&self, bytes: &[u8], at: u64) -> io::Result<()> {
        self.file.write_all_at(bytes, at)
    }

    /// Makes what was written durable.
    pub(crate) fn sync(&self) -> io::Result<()> {
        self.file.sync_data()
    }

    /// Makes what was written and the length durable.
    pub(crate) fn sync_all(&self) -> io::Result<()> {
        self.file.sync_all()
    }
}

/// Makes the names in a folder durable.
pub(crate) fn sync_folder(rt: &HostRuntime, folder: &str) -> io::Result<()> {
    File::open(rt, folder)?.sync_all()
}
