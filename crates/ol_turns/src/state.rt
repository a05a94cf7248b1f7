//! What the engine keeps beside its storage.

ghost use Rattle.std.specs.Prelude.{◌≡◌, ◌<◌, None, Some, IfOk, OnErr, if◌then◌else◌, length, ℕ};
ghost use Rattle.ol_values.specs.declared.event.Reply.TheVariants.{Stopped as StoppedReply};
ghost use Rattle.ol_model.specs.History.{is_faulted};
ghost use Rattle.ol_turns.specs.Cores.{entry_of, history_of, with_entry};

use crate::entries::Entries;
use crate::registers::Registers;
use ol_archive_turns::Archives;
use ol_chunks::ChunkTable;
use ol_free_slots::Hints;
use ol_txn::Locks;
use ol_values::{By, Entry, Event, Reply};

/// What the engine keeps in memory beside its storage.
#[derive(Drop)]
pub struct State {
    pub(crate) table: ChunkTable,
    pub(crate) locks: Locks,
    pub(crate) registers: Registers,
    pub(crate) archives: Archives,
    pub(crate) hints: Hints,
    // The position of the last record as the opening ended.
    pub(crate) opened: u64,
    // The entry that stopped the engine.
    pub(crate) stopped: Option<u64>,
    pub(crate) entries: Entries,
    // The counts of faults of the chunks, which stay as long as the engine goes on.
    pub(crate) counts: [u64; 32],
}

impl State {
    /// Enters a turn that was answered. `start` and `calls` are the number of the disk's last call as the turn began, and as it is answered.
    pub(crate) fn enter(&mut self, by: By, event: Event, start: u64, calls: u64, reply: &Reply)
        requires { 0 < self.old.entries.spare }
        ensures { self.new ≡ with_entry self.old (entry_of self.old by event start calls reply.now) }
    {
        let number = self.entries.as_slice().len() as u64 + 1;
        self.stopped = stopped_by(reply, number, self.stopped);
        self.entries.push(Entry {
            number,
            actor: by.actor,
            line: by.line,
            event,
            reply: reply.copy(),
            start,
            calls,
        });
    }

    /// Enters a turn of an engine that an entry has stopped, and tells that entry.
    pub(crate) fn refuse(&mut self, by: By, event: Event, calls: u64, entry: u64) -> Reply
        requires { 0 < self.old.entries.spare }
        ensures result { result ≡ StoppedReply entry }
        ensures state { self.new ≡ with_entry self.old (entry_of self.old by event calls calls (StoppedReply entry)) }
    {
        let reply = Reply::Stopped { entry };
        self.enter(by, event, calls, calls, &reply);
        reply
    }
}

// The entry that stops the engine, where this reply tells of a fault, else the one before.
fn stopped_by(reply: &Reply, number: u64, before: Option<u64>) -> Option<u64>
    ensures { result ≡ (if is_faulted reply.now then Some number else before) }
{
    match reply {
        Reply::DiskFault { .. } => Some(number),
        Reply::BadRead { .. } => Some(number),
        _ => before,
    }
}
