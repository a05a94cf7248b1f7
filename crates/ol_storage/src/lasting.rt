//! The lasting state of an installation: anchors that are written at the same checkpoint.

ghost use Rattle.std.specs.Prelude.{◌≡◌, ◌<◌, ◌^◌, IfErr, IfOk, OnErr, OnOk, false, true, ℕ};
ghost use Rattle.ol_ports.specs.Stops.{Stops};
ghost use Rattle.ol_reserve.specs.Anchor.{IsAnchor};
ghost use Rattle.ol_log_state.specs.Files.{next_page};
ghost use Rattle.ol_log_state.specs.RingState.{IsNextToBack};
ghost use Rattle.ol_storage.specs.Behind.{Behind, is_up};
ghost use Rattle.ol_storage.specs.Causes.{HasStorageCause};
ghost use Rattle.ol_storage.specs.Installation.{backed_up, config_of, flushed_of, lasting_anchor, marked, next_to_back, with_lasting};
ghost use Rattle.ol_storage.specs.Standing.{StandsBetween};
ghost use Rattle.ol_storage.specs.Storing.{IsStored};

use crate::storage::{Storage, StorageFault};
use ol_ports::Disk;
use ol_reserve::{Pair, SPACES};

/// What an anchor has of an installation beside its checkpoint and its log. Arrays go by the numbers of spaces.
#[derive(Debug, PartialEq, Eq, Drop)]
pub struct Lasting {
    /// The number of the next archive.
    pub next_archive: u64,
    /// Of each space 1 up, 2 down, 0 where there is none.
    pub states: [u8; SPACES],
    /// The journal's length as the space went down, 0 where it is not down.
    pub down_at: [u64; SPACES],
    /// The known archive of level 0, its number and cut, 0 for none.
    pub zero: [(u64, u64); SPACES],
    /// The known archive of level 1, its number and cut, 0 for none.
    pub one: [(u64, u64); SPACES],
}

impl<D: Disk> Storage<D> {
    /// Writes an anchor with another lasting state, at the same checkpoint. No space comes up by it.
    ///
    /// `Failed` comes only where the count of faults of a chunk rose, and is the only refusal.
    pub fn set_lasting(&mut self, lasting: &Lasting) -> Result<(), StorageFault>
        requires going { self.old.now.stopped ≡ false }
        requires anchor { IsAnchor (lasting_anchor self.old.now.anchor lasting.now self.old.now.ring.state.files.uniq) }
        requires up { (space : ℕ) → is_up (lasting_anchor self.old.now.anchor lasting.now self.old.now.ring.state.files.uniq) space ≡ true → is_up self.old.now.anchor space ≡ true }
        requires low { self.old.now.anchor.serial < 2 ^ 62 }
        ensures step { OnOk result (self.new.now ≡ with_lasting self.old.now lasting.now) }
        ensures stops { D.tells → (g : Behind) → IsStored (D.past self.old.disk) self.old.now g → Stops (D.past self.old.disk) (D.past self.new.disk) (StandsBetween (config_of self.old.now) g self.old.now.anchor (with_lasting self.old.now lasting.now).anchor (flushed_of self.old.now) (flushed_of self.old.now)) }
        ensures stored { D.tells → (g : Behind) → IsStored (D.past self.old.disk) self.old.now g → OnOk result (IsStored (D.past self.new.disk) self.new.now g) }
        ensures stopped { OnErr result (self.new.now.stopped ≡ true) }
        ensures only { IfErr result (λ fault. fault ≡ StorageFault.Failed) }
        ensures cause { HasStorageCause (config_of self.old.now) (D.fault_counts self.old.disk) (D.fault_counts self.new.disk) result }
    {
        // These tell that the ring and the store are whole.
        let _whole = (self.ring.reusable(self.anchor.uniq), self.store.spare());
        self.anchor.serial += 1;
        self.anchor.next_archive = lasting.next_archive;
        self.anchor.uniq = self.ring.uniq();
        self.anchor.states = lasting.states;
        self.anchor.down_at = lasting.down_at;
        self.anchor.zero = lasting.zero;
        self.anchor.one = lasting.one;
        match Pair::write(&mut self.disk, &self.anchor) {
            Ok(()) => Ok(()),
            Err(_) => {
                self.stopped = true;
                Err(StorageFault::Failed)
            }
        }
    }

    /// Marks the least closed use of a log file that is not backed up as backed up, by an anchor at the same checkpoint, and
    /// gives its unique number. None comes exactly where there is no such use, and then nothing is asked of the disk.
    ///
    /// `Failed` comes only where the count of faults of a chunk rose, and is the only refusal.
    pub fn mark_backed(&mut self) -> Result<Option<u64>, StorageFault>
        requires going { self.old.now.stopped ≡ false }
        requires low { self.old.now.anchor.serial < 2 ^ 62 }
        ensures answer { IfOk result (λ uniq. uniq ≡ next_to_back self.old.now) }
        ensures step { IfOk result (λ uniq. self.new.now ≡ marked self.old.now uniq) }
        ensures stops { D.tells → (g : Behind) → IsStored (D.past self.old.disk) self.old.now g → Stops (D.past self.old.disk) (D.past self.new.disk) (StandsBetween (config_of self.old.now) g self.old.now.anchor (marked self.old.now (next_to_back self.old.now)).anchor (flushed_of self.old.now) (flushed_of self.old.now)) }
        ensures stored { D.tells → (g : Behind) → IsStored (D.past self.old.disk) self.old.now g → OnOk result (IsStored (D.past self.new.disk) self.new.now g) }
        ensures stopped { OnErr result (self.new.now.stopped ≡ true) }
        ensures only { IfErr result (λ fault. fault ≡ StorageFault.Failed) }
        ensures cause { HasStorageCause (config_of self.old.now) (D.fault_counts self.old.disk) (D.fault_counts self.new.disk) result }
    {
        // These tell that the ring and the store are whole.
        let _whole = (self.ring.reusable(self.anchor.uniq), self.store.spare());
        let Some(next) = self.ring.unbacked() else {
            return Ok(None);
        };
        match self.write_backed(next.uniq) {
            Ok(()) => Ok(Some(next.uniq)),
            Err(fault) => Err(fault),
        }
    }

    // Writes an anchor with a greater backed number, and tells the ring of it.
    fn write_backed(&mut self, uniq: u64) -> Result<(), StorageFault>
        requires going { self.old.now.stopped ≡ false }
        requires next { IsNextToBack self.old.now.ring.state uniq }
        requires below { uniq < (next_page self.old.now.ring.state.files).uniq }
        requires low { self.old.now.anchor.serial < 2 ^ 62 }
        ensures step { OnOk result (self.new.now ≡ backed_up self.old.now uniq) }
        ensures stops { D.tells → (g : Behind) → IsStored (D.past self.old.disk) self.old.now g → Stops (D.past self.old.disk) (D.past self.new.disk) (StandsBetween (config_of self.old.now) g self.old.now.anchor (backed_up self.old.now uniq).anchor (flushed_of self.old.now) (flushed_of self.old.now)) }
        ensures stored { D.tells → (g : Behind) → IsStored (D.past self.old.disk) self.old.now g → OnOk result (IsStored (D.past self.new.disk) self.new.now g) }
        ensures stopped { OnErr result (self.new.now.stopped ≡ true) }
        ensures only { IfErr result (λ fault. fault ≡ StorageFault.Failed) }
        ensures cause { HasStorageCause (config_of self.old.now) (D.fault_counts self.old.disk) (D.fault_counts self.new.disk) result }
    {
        // These tell that the ring and the store are whole.
        let _whole = (self.ring.reusable(self.anchor.uniq), self.store.spare());
        self.anchor.serial += 1;
        self.anchor.backed = uniq;
        self.anchor.uniq = self.ring.uniq();
        match Pair::write(&mut self.disk, &self.anchor) {
            Ok(()) => {
                self.ring.mark_backed(uniq);
                Ok(())
            }
            Err(_) => {
                self.stopped = true;
                Err(StorageFault::Failed)
            }
        }
    }
}
