//! The storage, and what it is asked without a change.

ghost use Rattle.std.specs.Bool.{OnFalse};
ghost use Rattle.std.specs.Prelude.{◌≡◌, ◌<◌, false, ℕ};
ghost use Rattle.ol_loglog.specs.RingValue.{IsLogRing, RingValue};
ghost use Rattle.ol_ports.specs.Disk.{Bytes, Rest};
ghost use Rattle.ol_storage.specs.Behind.{Behind};
ghost use Rattle.ol_storage.specs.Installation.{HasAll, Installation, IsGoing, config_of, flushed_of};
ghost use Rattle.ol_storage.specs.Standing.{StandsFrom};
ghost use Rattle.ol_storage.specs.Storing.{IsStored};

use ol_chunks::ChunkTable;
use ol_loglog::LogRing;
use ol_ports::Disk;
use ol_reserve::Anchor;
use ol_store::Store;
use std::marker::Model;

/// Why a call of the storage failed.
#[derive(Clone, Copy, Debug, PartialEq, Eq)]
pub enum StorageFault {
    /// A call of the disk failed in this call. No call of the disk follows, for good.
    Failed,
    /// The disk gave no data page at this place, or one with a stamp above the flushed position of the logical log.
    Bad { chunk: u8, page: u32 },
    /// Memory was refused.
    NoMemory,
    /// A call of the disk has failed in an earlier call.
    Stopped,
}

/// The journal and the pages of an installation on one disk.
#[derive(Drop)]
pub struct Storage<D: Disk> {
    pub(crate) disk: D,
    pub(crate) ring: LogRing,
    pub(crate) store: Store,
    pub(crate) anchor: Anchor,
    // The pages have all records up to this position.
    pub(crate) reached: u64,
    pub(crate) stopped: bool,
}

impl<D: Disk> Model for Storage<D> {
    ghost use Rattle.ol_storage.specs.Installation.{Held, IsInstallation};

    ghost Value = { Held D };

    ghost view = { λ s. record { disk = s.disk; now = record { ring = s.ring; store = s.store; anchor = s.anchor; reached = s.reached; stopped = s.stopped } } };

    ghost invariant = { λ s. IsInstallation (D.sizes s.disk) (record { ring = s.ring; store = s.store; anchor = s.anchor; reached = s.reached; stopped = s.stopped }) };
}

impl<D: Disk> Storage<D> {
    /// The storage of a disk with what an opening read of it: the log ring, the pages, and the newest anchor. The pages have
    /// the records up to a position.
    pub fn new(disk: D, ring: LogRing, store: Store, anchor: Anchor, reached: u64) -> Storage<D>
        requires sizes { HasAll ring.config (D.sizes disk) }
        requires going { IsGoing (record { ring = ring; store = store; anchor = anchor; reached = reached; stopped = false }) }
        requires stamps { store.last < ring.state.next }
        ensures disk { result.disk ≡ disk }
        ensures now { result.now ≡ record { ring = ring; store = store; anchor = anchor; reached = reached; stopped = false } }
    {
        Storage {
            disk,
            ring,
            store,
            anchor,
            reached,
            stopped: false,
        }
    }

    /// The disk, to be asked for its counts of calls and faults.
    pub fn disk(&self) -> &D
        ensures { result.now ≡ self.now.disk }
    {
        &self.disk
    }

    /// The log ring, to be asked without the disk.
    pub fn log(&self) -> &LogRing
        ensures { result.now ≡ self.now.now.ring }
    {
        &self.ring
    }

    /// The page store, to be asked without the disk.
    pub fn pages(&self) -> &Store
        ensures { result.now ≡ self.now.now.store }
    {
        &self.store
    }

    /// The newest anchor.
    pub fn anchor(&self) -> &Anchor
        ensures { result.now ≡ self.now.now.anchor }
    {
        &self.anchor
    }

    /// The position up to which the pages have the records.
    pub fn reached(&self) -> u64
        ensures { result ≡ self.now.now.reached }
    {
        self.reached
    }

    /// Whether a call of the disk has failed, so that none may follow.
    pub fn is_stopped(&self) -> bool
        ensures value { result ≡ self.now.now.stopped }
        ensures going { OnFalse result (IsGoing self.now.now) }
        ensures ring { IsLogRing self.now.now.ring }
        // What a stop between two calls leaves.
        ensures stands { D.tells → (g : Behind) → IsStored (D.past self.now.disk) self.now.now g → (d : Bytes) → Rest (D.past self.now.disk) d → StandsFrom (config_of self.now.now) g self.now.now.anchor (flushed_of self.now.now) (flushed_of self.now.now) d }
    {
        // These tell that the ring and the store are whole.
        let _whole = (self.ring.reusable(self.anchor.uniq), self.store.spare());
        self.stopped
    }

    /// Hands the disk back.
    pub fn close(self) -> D
        ensures { result ≡ self.disk }
    {
        let Storage {
            disk,
            ring: _,
            store: _,
            anchor: _,
            reached: _,
            stopped: _,
        } = self;
        disk
    }
}
