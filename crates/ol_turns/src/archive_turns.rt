//! The turns of archivers.

ghost use Rattle.std.specs.Prelude.{◌≡◌, ◌<◌, ◌++◌, ◌∷◌, [], None, ℕ};
ghost use Rattle.ol_values.specs.declared.event.Event.TheVariants.{ArchiveCancel as CancelEvent, ArchiveEnd as EndEvent, ArchiveTurn as TurnEvent};
ghost use Rattle.ol_values.specs.declared.history.Actor.TheVariants.{Archiver as ArchiverValue};
ghost use Rattle.ol_values.specs.declared.record.Record.{Record as RecordValue};
ghost use Rattle.ol_archive_turns.specs.Turns.{IsArchiver, IsImage};
ghost use Rattle.ol_model.specs.Machine.{Machine, archive_of};
ghost use Rattle.ol_turns.specs.Cores.{HasReplyCause, IsWhole, Runs, entry_of, history_of, machine_of};
ghost use Rattle.ol_turns.specs.Actors.{IsOfArchiver};

use crate::engine::Core;
use ol_archive_turns::{cancel, end, turn};
use ol_ports::{Disk, PAGE_LENGTH};
use ol_values::{Actor, By, Event, Reply, Why};

impl<D: Disk> Core<D> {
    /// Gives the next page of an archiver's archive, as at its cut. Archivers count from 1 to 4. There is room for an entry.
    ///
    /// Refusals, in this order: `Stopped` exactly where an entry has stopped the engine; `NoArchive` exactly where the archiver has no
    /// running archive; `BeforeFull` exactly where an entry has broken it, which ends it; `DiskFault` only where the chunk's count of
    /// faults rose, and `BadRead`, never over a disk that tells its bytes: both stop the engine. `AllTaken` comes exactly where no page is
    /// left.
    pub fn archive_turn(&mut self, by: By, buf: &mut [u8; PAGE_LENGTH]) -> Reply
        requires by { IsOfArchiver by.actor }
        requires room { 0 < self.old.state.entries.spare }
        requires whole { IsWhole (D.fault_counts self.old.storage.disk) self.old.storage.now self.old.state }
        ensures whole { IsWhole (D.fault_counts self.new.storage.disk) self.new.storage.now self.new.state }
        ensures runs { D.tells → (earlier : ℕ → RecordValue) (begun : Machine) → Runs earlier begun (D.past self.old.storage.disk) self.old.storage.now self.old.state → Runs earlier begun (D.past self.new.storage.disk) self.new.storage.now self.new.state }
        ensures entry { history_of self.new.state ≡ history_of self.old.state ++ entry_of self.old.state by TurnEvent (D.moment self.old.storage.disk) (D.moment self.new.storage.disk) result ∷ [] }
        ensures counts { self.new.state.stopped ≡ None → D.fault_counts self.new.storage.disk ≡ D.fault_counts self.old.storage.disk }
        ensures cause { D.tells → (earlier : ℕ → RecordValue) (begun : Machine) → Runs earlier begun (D.past self.old.storage.disk) self.old.storage.now self.old.state → HasReplyCause (D.fault_counts self.old.storage.disk) (D.fault_counts self.new.storage.disk) result }
        ensures image { D.tells → (earlier : ℕ → RecordValue) (begun : Machine) → Runs earlier begun (D.past self.old.storage.disk) self.old.storage.now self.old.state → self.old.state.stopped ≡ None
            → (archiver : ℕ) → by.actor ≡ ArchiverValue archiver → IsImage (machine_of begun self.old.state) (archive_of (machine_of begun self.old.state) archiver) result buf.new }
    {
        // These tell that the configuration is whole, and the entries are few.
        let _whole = (self.storage.is_stopped(), self.state.entries.room());
        let start = self.storage.disk().calls();
        if let Some(entry) = self.state.stopped {
            return self.state.refuse(by, Event::ArchiveTurn, start, entry);
        }
        let answered = turn(
            &mut self.storage,
            &mut self.state.archives,
            archiver_of(by.actor),
            buf,
        );
        self.state.finish_surely(self.storage.disk(), by, Event::ArchiveTurn, start, answered)
    }

    /// Ends an archiver's archive, of which all pages have passed: it is known from then on. Archivers count from 1 to 4. There is room
    /// for an entry.
    ///
    /// Refusals, in this order: `Stopped` exactly where an entry has stopped the engine; `NoArchive` exactly where the archiver has no
    /// running archive; `BeforeFull` exactly where an entry has broken it, which ends it; `PagesLeft` exactly where so many pages have not
    /// passed; `DiskFault` only where the chunk's count of faults rose, and it stops the engine.
    pub fn archive_end(&mut self, by: By) -> Reply
        requires by { IsOfArchiver by.actor }
        requires room { 0 < self.old.state.entries.spare }
        requires whole { IsWhole (D.fault_counts self.old.storage.disk) self.old.storage.now self.old.state }
        ensures whole { IsWhole (D.fault_counts self.new.storage.disk) self.new.storage.now self.new.state }
        ensures runs { D.tells → (earlier : ℕ → RecordValue) (begun : Machine) → Runs earlier begun (D.past self.old.storage.disk) self.old.storage.now self.old.state → Runs earlier begun (D.past self.new.storage.disk) self.new.storage.now self.new.state }
        ensures entry { history_of self.new.state ≡ history_of self.old.state ++ entry_of self.old.state by EndEvent (D.moment self.old.storage.disk) (D.moment self.new.storage.disk) result ∷ [] }
        ensures counts { self.new.state.stopped ≡ None → D.fault_counts self.new.storage.disk ≡ D.fault_counts self.old.storage.disk }
        ensures cause { D.tells → (earlier : ℕ → RecordValue) (begun : Machine) → Runs earlier begun (D.past self.old.storage.disk) self.old.storage.now self.old.state → HasReplyCause (D.fault_counts self.old.storage.disk) (D.fault_counts self.new.storage.disk) result }
    {
        // These tell that the configuration is whole, and the entries are few.
        let _whole = (self.storage.is_stopped(), self.state.entries.room());
        let start = self.storage.disk().calls();
        if let Some(entry) = self.state.stopped {
            return self.state.refuse(by, Event::ArchiveEnd, start, entry);
        }
        let answered = end(
            &mut self.storage,
            &mut self.state.archives,
            archiver_of(by.actor),
        );
        self.state.finish_surely(self.storage.disk(), by, Event::ArchiveEnd, start, answered)
    }

    /// Gives up an archiver's archive; `count` is the drive's count of faults, which `TapeFault` tells. Archivers count from 1 to 4. There is
    /// room for an entry. Nothing is asked of the disk.
    ///
    /// Refusals, in this order: `Stopped` exactly where an entry has stopped the engine; `NoArchive` exactly where the archiver has no
    /// running archive.
    pub fn archive_cancel(&mut self, by: By, why: Why, count: u64) -> Reply
        requires by { IsOfArchiver by.actor }
        requires room { 0 < self.old.state.entries.spare }
        requires whole { IsWhole (D.fault_counts self.old.storage.disk) self.old.storage.now self.old.state }
        ensures whole { IsWhole (D.fault_counts self.new.storage.disk) self.new.storage.now self.new.state }
        ensures runs { D.tells → (earlier : ℕ → RecordValue) (begun : Machine) → Runs earlier begun (D.past self.old.storage.disk) self.old.storage.now self.old.state → Runs earlier begun (D.past self.new.storage.disk) self.new.storage.now self.new.state }
        ensures entry { history_of self.new.state ≡ history_of self.old.state ++ entry_of self.old.state by (CancelEvent why) (D.moment self.old.storage.disk) (D.moment self.new.storage.disk) result ∷ [] }
        ensures counts { self.new.state.stopped ≡ None → D.fault_counts self.new.storage.disk ≡ D.fault_counts self.old.storage.disk }
        ensures cause { D.tells → (earlier : ℕ → RecordValue) (begun : Machine) → Runs earlier begun (D.past self.old.storage.disk) self.old.storage.now self.old.state → HasReplyCause (D.fault_counts self.old.storage.disk) (D.fault_counts self.new.storage.disk) result }
    {
        // These tell that the configuration is whole, and the entries are few.
        let _whole = (self.storage.is_stopped(), self.state.entries.room());
        let start = self.storage.disk().calls();
        if let Some(entry) = self.state.stopped {
            return self
                .state
                .refuse(by, Event::ArchiveCancel { why }, start, entry);
        }
        let reply = cancel(
            &mut self.storage,
            &mut self.state.archives,
            archiver_of(by.actor),
            why,
            count,
        );
        self.state.finish_surely(
            self.storage.disk(),
            by,
            Event::ArchiveCancel { why },
            start,
            Ok(reply),
        )
    }
}

// The number of an archiver.
pub(crate) fn archiver_of(actor: Actor) -> u8
    requires { IsOfArchiver actor }
    ensures actor { actor ≡ ArchiverValue result }
    ensures archiver { IsArchiver result }
{
    match actor {
        Actor::Archiver(archiver) => archiver,
        Actor::Session(_) => unreachable!(),
        Actor::Backer => unreachable!(),
        Actor::Flusher => unreachable!(),
        Actor::Checkpointer => unreachable!(),
        Actor::Warmer => unreachable!(),
    }
}
