//! The program's call: a command over a rig of devices.
#![tactic(auto)]

mod archive;
mod init;
mod opening;
mod output;
mod plan;
mod play;
mod status;
mod told;
mod words;
mod work;

ghost use Rattle.std.specs.Prelude.{◌≡◌, ◌≢◌, ℕ, None, Some, All, length, slice_index_or};
ghost use Rattle.ol_ports.specs.Stops.{Stops};
ghost use Rattle.ol_online.specs.Calm.{FormatsCalmly, PlaysCalmly};
ghost use Rattle.ol_online.specs.Command.{IsCommanded};
ghost use Rattle.ol_online.specs.Initing.{IsInitBetween};
ghost use Rattle.ol_online.specs.Opening.{HasStatusCause};
ghost use Rattle.ol_online.specs.Sources.{TakesTo, limit_of};
ghost use Rattle.ol_online.specs.Views.{reading, storing, taping, writing};
ghost use Rattle.ol_online.specs.Words.{verb_told};

use crate::told::report;
use crate::work::work;
use ol_ports::{Disk, Drive, Shelf, Sink, Source};
use ol_values::History;
pub use output::write_history;
pub use status::{NotReady, Status, write_status};
use std::alloc::Global;
pub use words::{Verb, Words};

/// The devices that a command works on: a disk, the tape drives 0 to 4, and the shelf of volumes that were
/// written before. Drive k is that of archiver k.
pub struct Rig<D, T, F> {
    pub disk: D,
    pub drives: Vec<T>,
    pub shelf: F,
}

/// Carries out the command that the words give, and hands the rig and the history back. The output is what the
/// command tells, and then the text of the status.
///
/// `init` reads a configuration of at most 1,024 bytes from `script`, formats the disk for it, and tells `ready`.
/// `play` reads a script, opens the disk, and carries the lines out in file order, with pages in memory and the empty
/// journal at first; it tells the history. Its archive goes to drive 1, in blocks of 2,144 bytes: the header, the pages
/// that the journal changed, the trailer. No drive has a mounted volume with room at first.
///
/// `init` reads the first 1,025 bytes of `script`, `play` the first 16,776,961, or all where there are fewer. How many were
/// read is open after `ReadFault` and `NoMemory`.
///
/// - `BadWords` comes where the words are neither command. Nothing is read then.
/// - `ReadFault` comes where a read of the script or configuration failed.
/// - `BadConfig` and `BadScript` give the first line, from 1, that is off the grammar. The disk is not touched then.
/// - `NotReady`, `BadDisk` and `TooSmall` come where the disk can't be opened. They leave it as it was.
/// - `BadScript` comes at last for the first line that is not built yet: any but a begin, an insert or a commit of
///   session 1, and a last line of archiver 1 that archives spaces of the disk at level 0.
/// - `DiskFault` comes where a call of the disk failed, `TapeFault` where one of drive 1 did, `OutOfTape` where its
///   volumes take no more. The archive is given up then, and a first part of its blocks stays on the drive.
/// - `NoMemory` comes where memory was refused. The history is that of a first part of the work.
/// - `WriteFault` comes where the output was not written whole, and all else was well.
///
/// Where no call failed, a play ends in `Ok` or `NoMemory` if its lines are built, the disk has an installation on line
/// whose chunks are there, and drive 1 has room for the archive; so does an `init` for chunks that the disk has.
pub fn command<D: Disk, T: Drive, F: Shelf, S: Source, K: Sink>(
    alloc: Global,
    words: &Words,
    rig: Rig<D, T, F>,
    script: &mut S,
    out: &mut K,
) -> (Rig<D, T, F>, Status, History)
    requires five { length rig.drives.items ≡ 5 }
    requires empty { All (λ d. (T.tape d).room ≡ 0) rig.drives.items }
    ensures ended { (d : T) → IsCommanded (verb_told words.now) D.tells
        (reading S.left S.fault_count script.old script.new)
        (storing D.past D.sizes D.fault_counts rig.disk result.0.disk)
        (taping T.tape T.fault_count d rig.drives.items result.0.drives.items)
        (writing K.contents K.fault_count out.old out.new) result.2 result.1 }
    ensures calm { (d : T) → verb_told words.now ≡ Some Verb.Play → PlaysCalmly D.tells
        (reading S.left S.fault_count script.old script.new)
        (storing D.past D.sizes D.fault_counts rig.disk result.0.disk)
        (taping T.tape T.fault_count d rig.drives.items result.0.drives.items)
        (writing K.contents K.fault_count out.old out.new) result.2 result.1 }
    ensures calm_init { verb_told words.now ≡ Some Verb.Init → FormatsCalmly
        (reading S.left S.fault_count script.old script.new)
        (storing D.past D.sizes D.fault_counts rig.disk result.0.disk)
        (writing K.contents K.fault_count out.old out.new) result.1 }
    ensures reads { (verb : Verb) → verb_told words.now ≡ Some verb → TakesTo (limit_of verb) (S.left script.old) (S.left script.new) result.1 }
    ensures cause { HasStatusCause (D.fault_counts rig.disk) (D.fault_counts result.0.disk) result.1 }
    ensures past { D.tells → verb_told words.now ≢ Some Verb.Init → D.past result.0.disk ≡ D.past rig.disk }
    ensures untouched { verb_told words.now ≡ Some Verb.Init → result.1 ≢ Status.Ok → result.1 ≢ Status.WriteFault → ((chunk : ℕ) → result.1 ≢ Status.DiskFault chunk) → result.0.disk ≡ rig.disk }
    ensures stops { D.tells → verb_told words.now ≡ Some Verb.Init → Stops (D.past rig.disk) (D.past result.0.disk) (IsInitBetween (S.left script.old) (D.past rig.disk)) }
    ensures sizes { D.sizes result.0.disk ≡ D.sizes rig.disk }
    ensures unread { verb_told words.now ≡ None → (script.new ≡ script.old) × (result.0.disk ≡ rig.disk) }
    ensures shelf { result.0.shelf ≡ rig.shelf }
    ensures drives { (k : ℕ) (d : T) → k ≢ 1 → slice_index_or result.0.drives.items k d ≡ slice_index_or rig.drives.items k d }
    ensures five { length result.0.drives.items ≡ 5 }
{
    let Rig {
        mut disk,
        mut drives,
        shelf,
    } = rig;
    let (told, ended) = work(alloc, words, &mut disk, &mut drives, script);
    let status = report(out, &told, ended);
    let rig = Rig {
        disk,
        drives,
        shelf,
    };
    (rig, status, told.into_history(alloc))
}
