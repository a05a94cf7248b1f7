//! The roll forward of pages, a log page at a time.

ghost use Rattle.std.specs.Prelude.{[], ◌≡◌, ◌≤◌, ◌<◌, ◌+◌, ◌-◌, ◌∷◌, ◌^◌, IsErrOf, List, OnErr, OnOk, Option, Some, drop, false, length, take, true, ℕ};
ghost use Rattle.ol_values.specs.Pages.{Page};
ghost use Rattle.ol_record.specs.LogPages.{IsLogPage, page_in};
ghost use Rattle.ol_rollfwd.specs.Feeding.{HasFrames, HasTaken, HasTakenSome, Shows, fed_from, first_out, is_next, pages_after, records_due};
ghost use Rattle.ol_rollfwd.specs.Rolls.{after};

use crate::fault::RollFault;
use crate::images::{put_row, slot_in};
use crate::roll::Roll;
use ol_bytes::number;
use ol_pool::Pool;
use ol_record::RecordsOf;
use ol_values::Record;

impl Roll {
    /// Takes the records of a log page from the next position on, up to `upto`, and passes over the others. Those that are applied
    /// change the pages in memory; a page that is not in memory was never changed.
    ///
    /// # Errors
    ///
    /// `OutOfPlace` with the position of the first record that is out of place, exactly where there is one; `NoMemory` where
    /// memory was refused. Behind both the records before that one are taken, and the same page may be fed again.
    pub fn feed(&mut self, page: &[u8; 2048], upto: u64, pages: &mut Pool) -> Result<(), RollFault>
        requires page { IsLogPage (page_in page.now) }
        requires first { (page_in page.now).first ≤ self.old.next }
        requires frames { HasFrames self.old.config pages.old }
        ensures ok { (v : ℕ → ℕ → Page) → Shows self.old.config pages.old v → OnOk result (HasTaken self.old.config (fed_from self.old v) (records_due (page_in page.now) self.old.next upto) self.new pages.new) }
        ensures err { (v : ℕ → ℕ → Page) → Shows self.old.config pages.old v → OnErr result (HasTakenSome self.old.config (fed_from self.old v) (records_due (page_in page.now) self.old.next upto) self.new pages.new) }
        ensures out { (v : ℕ → ℕ → Page) → Shows self.old.config pages.old v → (position : ℕ) → IsErrOf result (RollFault.OutOfPlace position) → first_out (fed_from self.old v) (records_due (page_in page.now) self.old.next upto) ≡ Some position }
        ensures position { (position : ℕ) → IsErrOf result (RollFault.OutOfPlace position) → position ≡ self.new.next }
        ensures frames { HasFrames self.new.config pages.new }
        ensures config { self.new.config ≡ self.old.config }
    {
        let mut records = RecordsOf::new(page);
        let passed = self.next() - first_position(page);
        skip(&mut records, passed);
        feed_records(self, &mut records, upto, pages)
    }
}

/// The position of the first record of a log page.
#[tactic(auto, unfolding(ol_record::specs::LogPages::page_in))]
fn first_position(page: &[u8; 2048]) -> u64
    ensures { result ≡ (page_in page.now).first }
{
    number(&page[24..32])
}

/// Passes over so many records, or all.
fn skip(records: &mut RecordsOf<'_>, count: u64)
    ensures { records.new ≡ drop count records.old }
{
    for _ in 0..count {
        let Some(_record) = records.next() else {
            return;
        };
    }
}

/// Takes records up to a position, the first of which is the next.
fn feed_records(
    roll: &mut Roll,
    records: &mut RecordsOf<'_>,
    upto: u64,
    pages: &mut Pool,
) -> Result<(), RollFault>
    requires positions { 0 < length records.old → roll.old.next + length records.old ≤ 2 ^ 62 }
    requires frames { HasFrames roll.old.config pages.old }
    ensures ok { (v : ℕ → ℕ → Page) → Shows roll.old.config pages.old v → OnOk result (HasTaken roll.old.config (fed_from roll.old v) (take (upto + 1 - roll.old.next) records.old) roll.new pages.new) }
    ensures err { (v : ℕ → ℕ → Page) → Shows roll.old.config pages.old v → OnErr result (HasTakenSome roll.old.config (fed_from roll.old v) (take (upto + 1 - roll.old.next) records.old) roll.new pages.new) }
    ensures out { (v : ℕ → ℕ → Page) → Shows roll.old.config pages.old v → (position : ℕ) → IsErrOf result (RollFault.OutOfPlace position) → first_out (fed_from roll.old v) (take (upto + 1 - roll.old.next) records.old) ≡ Some position }
    ensures position { (position : ℕ) → IsErrOf result (RollFault.OutOfPlace position) → position ≡ roll.new.next }
    ensures frames { HasFrames roll.new.config pages.new }
    ensures config { roll.new.config ≡ roll.old.config }
{
    while roll.next() <= upto {
        let Some(rec) = records.next() else {
            return Ok(());
        };
        match feed_one(roll, &rec, pages) {
            Ok(()) => {}
            Err(fault) => return Err(fault),
        }
    }
    Ok(())
}

/// Takes the next record, and applies it.
fn feed_one(roll: &mut Roll, rec: &Record, pages: &mut Pool) -> Result<(), RollFault>
    requires position { roll.old.next < 2 ^ 62 }
    requires frames { HasFrames roll.old.config pages.old }
    ensures place { (v : ℕ → ℕ → Page) → Shows roll.old.config pages.old v → OnOk result (is_next (fed_from roll.old v) rec.now ≡ true) }
    ensures step { OnOk result (roll.new ≡ after roll.old rec.now) }
    ensures pages { (v : ℕ → ℕ → Page) → Shows roll.old.config pages.old v → OnOk result (Shows roll.old.config pages.new (pages_after (fed_from roll.old v) rec.now)) }
    ensures unchanged { OnErr result (roll.new ≡ roll.old) }
    ensures same { (v : ℕ → ℕ → Page) → Shows roll.old.config pages.old v → OnErr result (Shows roll.old.config pages.new v) }
    ensures out { (v : ℕ → ℕ → Page) → Shows roll.old.config pages.old v → (position : ℕ) → IsErrOf result (RollFault.OutOfPlace position) → is_next (fed_from roll.old v) rec.now ≡ false }
    ensures position { (position : ℕ) → IsErrOf result (RollFault.OutOfPlace position) → position ≡ roll.old.next }
    ensures frames { HasFrames roll.old.config pages.new }
{
    let stamp = roll.next();
    let held = slot_in(pages, roll.place_moved(rec))?;
    match roll.take(rec, &held) {
        Ok(Some((rid, row))) => {
            put_row(pages, rid, row, stamp);
            Ok(())
        }
        Ok(None) => Ok(()),
        Err(fault) => Err(fault),
    }
}
