//! What an actor asks of the engine in one turn, and what the engine answers.

ghost use Rattle.std.specs.Prelude.{◌≡◌};

use crate::{Label, Labels, Rid, Row};

/// A row that a line names: by a register, or by its place. The place need not be there.
#[derive(Clone, Copy)]
pub enum Target {
    /// Register 0 to 9.
    Reg(u8),
    /// A slot of a page of the space of that name.
    At { space: Label, page: u32, slot: u32 },
}

/// Why an archive or the backup of a log file is given up.
#[derive(Clone, Copy, Debug, PartialEq, Eq)]
pub enum Why {
    /// The operator asked for it.
    Asked,
    /// The tape failed. `since` is the drive's count of faults as the script line began.
    Fault { since: u64 },
    /// A block found no volume that takes it.
    Full,
}

/// What a warm restore makes known of a space: the number and the cut of the last archive of level 0 and of level 1 in its
/// chain, 0 for none.
#[derive(Clone, Copy, Debug, PartialEq, Eq)]
pub struct Known {
    pub zero: (u64, u64),
    pub one: (u64, u64),
}

/// One turn, with its arguments.
#[derive(Drop)]
pub enum Event {
    /// A transaction begins.
    Begin,
    /// A row goes into the space, and its place into register `reg`.
    Insert { reg: u8, space: Label, row: Row },
    /// A row becomes another.
    Update { target: Target, row: Row },
    /// A row is taken away.
    Delete { target: Target },
    /// A row is read.
    Read { target: Target },
    /// The rows of a page are told.
    ListPage { space: Label, page: u32 },
    /// The transaction is committed.
    Commit,
    /// The newest change of the transaction that is not taken back is taken back.
    UndoOne,
    /// The transaction, whose changes were all taken back, ends.
    EndRollback,
    /// A checkpoint.
    Checkpoint,
    /// The page that has been changed for the longest goes to its place on disk.
    Clean,
    /// An archive of this level (0, 1 or 2) of these spaces begins.
    ArchiveStart { level: u8, spaces: Labels },
    /// The archive takes its next page.
    ArchiveTurn,
    /// The archive, whose pages were all taken, ends.
    ArchiveEnd,
    /// The archive is given up.
    ArchiveCancel { why: Why },
    /// The log file that is backed up next is picked.
    LogPick,
    /// The next page of the picked log file is copied.
    CopyPage,
    /// The picked log file, whose pages were all copied, is backed up.
    LogDone,
    /// The backup of the picked log file is given up.
    LogCancel { why: Why },
    /// The current log file is closed.
    Switch,
    /// The warm restore of a space begins.
    WarmStart { space: Label },
    /// The log page on disk with this position is read.
    ReadLog { position: u64 },
    /// This page of the space that is restored goes to its place.
    WarmPut { page: u16 },
    /// The restored space comes up, and these archives of it are known.
    WarmEnd { known: Known },
    /// The warm restore is given up, as the shelf answered; `since` is the shelf's count of faults as the line began.
    WarmCancel { since: u64, why: Reply },
}

/// The answer to a turn. Spaces, pages, slots, chunks, drives, volumes, blocks, archivers, entries and positions
/// are given by their numbers; spaces, pages, slots, chunks and blocks count from 0, all else from 1.
#[derive(Drop)]
pub enum Reply {
    /// The transaction began, with this number.
    Begun { txn: u64 },
    /// The row stands at this place.
    At { rid: Rid },
    /// The row at this place was changed.
    Changed { rid: Rid },
    /// The row that was read.
    RowIs { row: Row },
    /// The slots of a page that hold a row: bit `i` is set where slot `i` does.
    Slots { bits: u32 },
    /// The Commit record has this position.
    Committed { position: u64 },
    /// The change of this place was taken back.
    Undone { rid: Rid },
    /// The transaction is rolled back; its last record has this position.
    RolledBack { position: u64 },
    /// The checkpoint stands at this position.
    Checkpointed { position: u64 },
    /// The changed page was written to its place on disk.
    Cleaned { space: u8, page: u16 },
    /// No page is changed.
    NothingDirty,
    /// The archive of this number has so many pages, as they were at position `cut`.
    Started { number: u64, cut: u64, pages: u32 },
    /// The next page of the archive.
    PageIs { space: u8, page: u16 },
    /// No page of the archive is left.
    AllTaken,
    /// The archive ended, with so many pages.
    Archived { number: u64, cut: u64, pages: u32 },
    /// The archive, or the log backup of this log file, was given up as the operator asked.
    Cancelled { number: u64 },
    /// The log file of this unique number, of so many pages, is backed up next.
    Picked { uniq: u64, pages: u32 },
    /// The next page of the log file.
    LogPage { uniq: u64, index: u32 },
    /// The log file is backed up.
    Backed { uniq: u64 },
    /// No log file is to be backed up, or to be closed.
    NothingToBack,
    /// The log file is closed, and the next one is current.
    Switched { uniq: u64 },
    /// The warm restore of the space begins; its rows are brought up to this position.
    Warming { space: u8, upto: u64 },
    /// A log page on disk, of which the first record has this position.
    WarmLog { first: u64 },
    /// The page of the space that is restored stands in its place.
    Put { page: u16 },
    /// The space is on line again.
    Up { space: u8 },
    /// Refused: the session has no open transaction.
    NoTxn,
    /// Refused: the session has an open transaction.
    TxnOpen,
    /// Refused: the slot holds no row.
    NoRow,
    /// Refused: a session, of which this is the least, holds a lock in conflict.
    RowLocked { holder: u8 },
    /// Refused: each slot of the space is taken.
    SpaceFull { space: u8 },
    /// Refused: the space is down.
    SpaceDown { space: u8 },
    /// Refused: the configuration has no space of that name.
    NoSpace,
    /// Refused: the log has no room, until the log file of this unique number may be used again.
    LogsFull { uniq: u64 },
    /// Refused: the register holds no place.
    Unbound,
    /// Refused: this archiver has a running archive.
    Archiving { archiver: u8 },
    /// Refused: the space has no known archive of this level to build on.
    NoParent { space: u8, level: u8 },
    /// Refused: the archiver has no running archive.
    NoArchive,
    /// The archive ended early: the change of this entry found no room for a captured image.
    BeforeFull { entry: u64 },
    /// Refused: so many pages of the archive have not passed.
    PagesLeft { count: u32 },
    /// The archive or log backup was given up: the drive failed, and shows this count of faults.
    TapeFault { drive: u8, count: u64 },
    /// The archive or log backup was given up: the drive has no volume that takes a block.
    OutOfTape { drive: u8 },
    /// Refused: the space is not down.
    NotDown { space: u8 },
    /// The warm restore was given up: no archive of that level and number is on the volumes.
    MissingLevel { space: u8, level: u8, archive: u64 },
    /// No log holds this position, neither on the volumes nor on disk.
    MissingLog { position: u64 },
    /// The warm restore was given up: this block is damaged.
    DamagedVolume { drive: u8, volume: u32, block: u32 },
    /// The warm restore was given up: the volumes can't be read, and show this count of faults.
    ShelfFault { count: u64 },
    /// A call of the disk failed. The engine stops.
    DiskFault { chunk: u8 },
    /// Refused: the engine stopped at this entry.
    Stopped { entry: u64 },
    /// Refused: the journal takes no more records.
    JournalFull,
    /// Refused: the space has no such page, or the page no such slot.
    BadRid,
    /// A page that was read from the disk is damaged. The engine stops.
    BadRead { chunk: u8, page: u32 },
}

impl Reply {
    /// The same reply again.
    pub fn copy(&self) -> Reply
        ensures { result ≡ self.now }
    {
        match *self {
            Reply::Begun { txn } => Reply::Begun { txn },
            Reply::At { rid } => Reply::At { rid },
            Reply::Changed { rid } => Reply::Changed { rid },
            Reply::RowIs { ref row } => Reply::RowIs { row: row.copy() },
            Reply::Slots { bits } => Reply::Slots { bits },
            Reply::Committed { position } => Reply::Committed { position },
            Reply::Undone { rid } => Reply::Undone { rid },
            Reply::RolledBack { position } => Reply::RolledBack { position },
            Reply::Checkpointed { position } => Reply::Checkpointed { position },
            Reply::Cleaned { space, page } => Reply::Cleaned { space, page },
            Reply::NothingDirty => Reply::NothingDirty,
            Reply::Started { number, cut, pages } => Reply::Started { number, cut, pages },
            Reply::PageIs { space, page } => Reply::PageIs { space, page },
            Reply::AllTaken => Reply::AllTaken,
            Reply::Archived { number, cut, pages } => Reply::Archived { number, cut, pages },
            Reply::Cancelled { number } => Reply::Cancelled { number },
            Reply::Picked { uniq, pages } => Reply::Picked { uniq, pages },
            Reply::LogPage { uniq, index } => Reply::LogPage { uniq, index },
            Reply::Backed { uniq } => Reply::Backed { uniq },
            Reply::NothingToBack => Reply::NothingToBack,
            Reply::Switched { uniq } => Reply::Switched { uniq },
            Reply::Warming { space, upto } => Reply::Warming { space, upto },
            Reply::WarmLog { first } => Reply::WarmLog { first },
            Reply::Put { page } => Reply::Put { page },
            Reply::Up { space } => Reply::Up { space },
            Reply::NoTxn => Reply::NoTxn,
            Reply::TxnOpen => Reply::TxnOpen,
            Reply::NoRow => Reply::NoRow,
            Reply::RowLocked { holder } => Reply::RowLocked { holder },
            Reply::SpaceFull { space } => Reply::SpaceFull { space },
            Reply::SpaceDown { space } => Reply::SpaceDown { space },
            Reply::NoSpace => Reply::NoSpace,
            Reply::LogsFull { uniq } => Reply::LogsFull { uniq },
            Reply::Unbound => Reply::Unbound,
            Reply::Archiving { archiver } => Reply::Archiving { archiver },
            Reply::NoParent { space, level } => Reply::NoParent { space, level },
            Reply::NoArchive => Reply::NoArchive,
            Reply::BeforeFull { entry } => Reply::BeforeFull { entry },
            Reply::PagesLeft { count } => Reply::PagesLeft { count },
            Reply::TapeFault { drive, count } => Reply::TapeFault { drive, count },
            Reply::OutOfTape { drive } => Reply::OutOfTape { drive },
            Reply::NotDown { space } => Reply::NotDown { space },
            Reply::MissingLevel {
                space,
                level,
                archive,
            } => Reply::MissingLevel {
                space,
                level,
                archive,
            },
            Reply::MissingLog { position } => Reply::MissingLog { position },
            Reply::DamagedVolume {
                drive,
                volume,
                block,
            } => Reply::DamagedVolume {
                drive,
                volume,
                block,
            },
            Reply::ShelfFault { count } => Reply::ShelfFault { count },
            Reply::DiskFault { chunk } => Reply::DiskFault { chunk },
            Reply::Stopped { entry } => Reply::Stopped { entry },
            Reply::JournalFull => Reply::JournalFull,
            Reply::BadRid => Reply::BadRid,
            Reply::BadRead { chunk, page } => Reply::BadRead { chunk, page },
        }
    }
}
