//! The engine.

ghost use Rattle.std.specs.Prelude.{◌≡◌, ◌++◌, ◌∷◌, [], ◌+◌, ◌/◌, ◌^◌, ◌<◌, ◌≤◌, ◌*◌, length, OnOk, OnErr, IfOk, vec_len, vec_capacity};
ghost use Rattle.std.specs.Prelude.{Some, None};
ghost use Rattle.ol_values.specs.declared.record.Record.TheVariants.{Change};
ghost use Rattle.ol_core.specs.Core.{entry_of};
ghost use Rattle.ol_core.specs.Filled.{slot_at};

use crate::choice::{choose, find};
use crate::pages::Pages;
use crate::running::Running;
use crate::space_pages::SLOTS;
use ol_chunks::ChunkTable;
use ol_page::{PAGE_LENGTH, stamp};
use ol_values::{By, Entry, Event, History, Label, Labels, NoMemory, Record, Reply, Rid, Row, Why};
use std::alloc::Global;
use std::marker::Model;

/// The engine over pages in memory: one session works, and one archiver.
pub struct Core {
    table: ChunkTable,
    journal: Vec<Record>,
    txn: Option<u64>,
    registers: [Option<Rid>; 10],
    pages: Pages,
    next_archive: u64,
    archive: Option<Running>,
    history: History,
}

impl Model for Core {
    ghost use Rattle.std.specs.Prelude.{List};
    ghost use Rattle.ol_core.specs.Core.{Seen, machine_in, IsKept};

    ghost Value = { Seen };

    ghost view = { λ e. record { machine = machine_in e.table e.journal.items e.txn e.registers e.next_archive e.archive; history = e.history } };

    ghost invariant = { λ e. IsKept e.table e.journal.items e.txn e.pages e.next_archive e.archive e.history };
}

/// The place of slot `i` of a space, over all its pages.
fn slot_of(space: u8, i: u32) -> Rid
    requires { i < 65535 * 31 }
    ensures { result ≡ slot_at space i }
{
    Rid {
        space,
        page: (i / SLOTS) as u16,
        slot: (i % SLOTS) as u8,
    }
}

/// The record of a row that goes into an empty slot.
fn inserted(txn: u64, rid: Rid, row: &Row) -> Record
    ensures { result ≡ Change txn rid None (Some row.now) }
{
    Record::Change {
        txn,
        rid,
        before: None,
        after: Some(row.copy()),
    }
}

/// Appends an entry.
fn answer(history: &mut History, by: By, event: Event, reply: &Reply) -> Result<(), NoMemory>
    ensures ok { OnOk result (history.new ≡ history.old ++ entry_of (length history.old + 1) by event reply.now ∷ []) }
    ensures err { OnErr result (history.new ≡ history.old) }
    ensures bound { length history.old < 2 ^ 63 }
{
    let number = history.as_slice().len() as u64 + 1;
    history.push(Entry {
        number,
        actor: by.actor,
        line: by.line,
        event,
        reply: reply.copy(),
        start: 0,
        calls: 0,
    })
}

/// Appends a record, for which there is room.
fn append(journal: &mut Vec<Record>, added: Record)
    requires { vec_len journal.old < vec_capacity journal.old }
    ensures { journal.new.items ≡ journal.old.items ++ added ∷ [] }
{
    let Ok(()) = journal.push(added) else {
        unreachable!();
    };
}

impl Core {
    ghost use Rattle.ol_values.specs.declared.history.Actor.TheVariants.{Session, Archiver};
    ghost use Rattle.ol_values.specs.declared.event.Event.TheVariants.{Begin as BeginTurn, Insert as InsertTurn, Commit as CommitTurn, ArchiveStart, ArchiveTurn, ArchiveEnd, ArchiveCancel};
    ghost use Rattle.ol_core.specs.Core.{Takes, IsIdle, IsThere, IsWithin, ShowsCount, archive_in};
    ghost use Rattle.ol_values.specs.Config.{data_pages};
    ghost use Rattle.ol_values.specs.Image.{page_bytes};
    ghost use Rattle.ol_rules.specs.Journal.{page_at};
    ghost use Rattle.ol_core.specs.Machine.{archive_of, config_of, formatted, journal_in};
    ghost use Rattle.std.specs.Option.{option_map};
    ghost use Rattle.std.specs.Prelude.{IfSome};

    /// The core of a newly formatted installation, with the empty journal.
    pub fn new(alloc: Global, table: ChunkTable) -> Result<Core, NoMemory>
        ensures { IfOk result (λ c. c ≡ record { machine = formatted table; history = [] }) }
    {
        let pages = Pages::new(alloc, table.spaces())?;
        Ok(Core {
            table,
            journal: Vec::new(alloc),
            txn: None,
            registers: [None; 10],
            pages,
            next_archive: 1,
            archive: None,
            history: History::new(alloc),
        })
    }

    /// A transaction begins.
    pub fn begin(&mut self, by: By) -> Result<Reply, NoMemory>
        requires actor { by.actor ≡ Session 1 }
        requires idle { IsIdle self.old }
        ensures ok { IfOk result (λ reply. Takes self.old by BeginTurn reply self.new) }
        ensures err { OnErr result (self.new ≡ self.old) }
    {
        if self.txn.is_some() {
            let reply = Reply::TxnOpen;
            answer(&mut self.history, by, Event::Begin, &reply)?;
            return Ok(reply);
        }
        self.journal.reserve(1)?;
        let txn = self.journal.len() as u64 + 1;
        let reply = Reply::Begun { txn };
        answer(&mut self.history, by, Event::Begin, &reply)?;
        append(&mut self.journal, Record::Begin { txn });
        self.txn = Some(txn);
        Ok(reply)
    }

    /// A row goes into the least empty slot of a space, of which register `reg` (0 to 9) then tells.
    pub fn insert(&mut self, by: By, reg: u8, space: &Label, row: &Row) -> Result<Reply, NoMemory>
        requires actor { by.actor ≡ Session 1 }
        requires idle { IsIdle self.old }
        requires register { reg < 10 }
        ensures ok { IfOk result (λ reply. Takes self.old by (InsertTurn reg space.now row.now) reply self.new) }
        ensures err { OnErr result (self.new ≡ self.old) }
    {
        let event = Event::Insert {
            reg,
            space: *space,
            row: row.copy(),
        };
        let Some(txn) = self.txn else {
            let reply = Reply::NoTxn;
            answer(&mut self.history, by, event, &reply)?;
            return Ok(reply);
        };
        let Some(space) = find(&self.table, space) else {
            let reply = Reply::NoSpace;
            answer(&mut self.history, by, event, &reply)?;
            return Ok(reply);
        };
        let rows = self.pages.rows(space);
        if rows == SLOTS * self.table.pages(space) {
            let reply = Reply::SpaceFull { space };
            answer(&mut self.history, by, event, &reply)?;
            return Ok(reply);
        }
        self.pages.make_room(space)?;
        self.journal.reserve(1)?;
        let rid = slot_of(space, rows);
        let reply = Reply::At { rid };
        answer(&mut self.history, by, event, &reply)?;
        let stamp = self.journal.len() as u64 + 1;
        append(&mut self.journal, inserted(txn, rid, row));
        self.pages.put(space, row, stamp);
        self.registers[reg as usize] = Some(rid);
        Ok(reply)
    }

    /// The session's transaction is committed.
    pub fn commit(&mut self, by: By) -> Result<Reply, NoMemory>
        requires actor { by.actor ≡ Session 1 }
        requires idle { IsIdle self.old }
        ensures ok { IfOk result (λ reply. Takes self.old by CommitTurn reply self.new) }
        ensures err { OnErr result (self.new ≡ self.old) }
    {
        let Some(txn) = self.txn else {
            let reply = Reply::NoTxn;
            answer(&mut self.history, by, Event::Commit, &reply)?;
            return Ok(reply);
        };
        self.journal.reserve(1)?;
        let position = self.journal.len() as u64 + 1;
        let reply = Reply::Committed { position };
        answer(&mut self.history, by, Event::Commit, &reply)?;
        append(&mut self.journal, Record::Commit { txn });
        self.txn = None;
        Ok(reply)
    }

    /// An archive of level 0 of these spaces begins.
    pub fn archive_start(&mut self, by: By, spaces: &Labels) -> Result<Reply, NoMemory>
        requires actor { by.actor ≡ Archiver 1 }
        ensures ok { IfOk result (λ reply. Takes self.old by (ArchiveStart 0 spaces.now) reply self.new) }
        ensures err { OnErr result (self.new ≡ self.old) }
    {
        let event = Event::ArchiveStart {
            level: 0,
            spaces: *spaces,
        };
        if self.archive.is_some() {
            let reply = Reply::Archiving { archiver: 1 };
            answer(&mut self.history, by, event, &reply)?;
            return Ok(reply);
        }
        let Some(spaces) = choose(&self.table, spaces) else {
            let reply = Reply::NoSpace;
            answer(&mut self.history, by, event, &reply)?;
            return Ok(reply);
        };
        let number = self.next_archive;
        let cut = self.journal.len() as u64;
        let low = self.txn.unwrap_or(cut + 1);
        let pages = self.pages.count(&spaces);
        let reply = Reply::Started { number, cut, pages };
        answer(&mut self.history, by, event, &reply)?;
        self.archive = Some(Running {
            number,
            cut,
            low,
            spaces,
            passed: 0,
        });
        self.next_archive += 1;
        Ok(reply)
    }

    /// The running archive takes its next page.
    pub fn archive_turn(&mut self, by: By) -> Result<Reply, NoMemory>
        requires actor { by.actor ≡ Archiver 1 }
        ensures ok { IfOk result (λ reply. Takes self.old by ArchiveTurn reply self.new) }
        ensures there { IfOk result (IsThere (config_of self.new.machine)) }
        ensures err { OnErr result (self.new ≡ self.old) }
    {
        let Some(archive) = self.archive else {
            let reply = Reply::NoArchive;
            answer(&mut self.history, by, Event::ArchiveTurn, &reply)?;
            return Ok(reply);
        };
        let Some((space, page)) = self.pages.page_behind(&archive.spaces, archive.passed) else {
            let reply = Reply::AllTaken;
            answer(&mut self.history, by, Event::ArchiveTurn, &reply)?;
            return Ok(reply);
        };
        let reply = Reply::PageIs { space, page };
        answer(&mut self.history, by, Event::ArchiveTurn, &reply)?;
        self.archive = Some(Running {
            passed: archive.passed + 1,
            ..archive
        });
        Ok(reply)
    }

    /// The running archive, whose pages have all passed, ends.
    pub fn archive_end(&mut self, by: By) -> Result<Reply, NoMemory>
        requires actor { by.actor ≡ Archiver 1 }
        ensures ok { IfOk result (λ reply. Takes self.old by ArchiveEnd reply self.new) }
        ensures err { OnErr result (self.new ≡ self.old) }
    {
        let Some(archive) = self.archive else {
            let reply = Reply::NoArchive;
            answer(&mut self.history, by, Event::ArchiveEnd, &reply)?;
            return Ok(reply);
        };
        let count = self.pages.count(&archive.spaces) - archive.passed;
        if count > 0 {
            let reply = Reply::PagesLeft { count };
            answer(&mut self.history, by, Event::ArchiveEnd, &reply)?;
            return Ok(reply);
        }
        let reply = Reply::Archived {
            number: archive.number,
            cut: archive.cut,
            pages: archive.passed,
        };
        answer(&mut self.history, by, Event::ArchiveEnd, &reply)?;
        self.archive = None;
        Ok(reply)
    }

    /// The running archive is given up. `faults` is the count that its drive shows.
    pub fn archive_cancel(&mut self, by: By, why: Why, faults: u64) -> Result<Reply, NoMemory>
        requires actor { by.actor ≡ Archiver 1 }
        ensures ok { IfOk result (λ reply. Takes self.old by (ArchiveCancel why) reply self.new) }
        ensures count { IfOk result (ShowsCount faults) }
        ensures err { OnErr result (self.new ≡ self.old) }
    {
        let event = Event::ArchiveCancel { why };
        let Some(archive) = self.archive else {
            let reply = Reply::NoArchive;
            answer(&mut self.history, by, event, &reply)?;
            return Ok(reply);
        };
        let reply = match why {
            Why::Asked => Reply::Cancelled {
                number: archive.number,
            },
            Why::Fault { since: _ } => Reply::TapeFault {
                drive: 1,
                count: faults,
            },
            Why::Full => Reply::OutOfTape { drive: 1 },
        };
        answer(&mut self.history, by, event, &reply)?;
        self.archive = None;
        Ok(reply)
    }

    /// The image of a data page.
    pub fn image(&self, space: u8, page: u16) -> &[u8; PAGE_LENGTH]
        requires space { space < length (config_of self.now.machine).spaces }
        requires page { page < data_pages (config_of self.now.machine) space }
        ensures image { result.now ≡ page_bytes (page_at (journal_in self.now.machine) space page) }
        ensures whole { length result.now ≡ 2048 }
    {
        self.pages.image(space, page)
    }

    /// The stamp of a data page.
    pub fn stamp(&self, space: u8, page: u16) -> u64
        requires space { space < length (config_of self.now.machine).spaces }
        requires page { page < data_pages (config_of self.now.machine) space }
        ensures { result ≡ (page_at (journal_in self.now.machine) space page).stamp }
    {
        stamp(self.pages.image(space, page))
    }

    /// The running archive.
    pub fn running(&self) -> Option<Running>
        ensures value { option_map archive_in result ≡ archive_of self.now.machine 1 }
        ensures still { IfSome result (λ a. a.cut ≡ length (journal_in self.now.machine)) }
        ensures few { IfSome result (IsWithin self.now.machine) }
        ensures limit { IfSome result (λ a. a.passed ≤ 1048560) }
    {
        self.archive
    }

    /// The configuration.
    pub fn table(&self) -> &ChunkTable
        ensures { result.now ≡ config_of self.now.machine }
    {
        &self.table
    }

    /// The turns so far.
    pub fn history(&self) -> &History
        ensures { result.now ≡ self.now.history }
    {
        &self.history
    }

    /// Hands the history back.
    pub fn into_history(self) -> History
        ensures { result ≡ self.history }
    {
        let Core {
            table: _,
            journal: _,
            txn: _,
            registers: _,
            pages: _,
            next_archive: _,
            archive: _,
            history,
        } = self;
        history
    }
}
