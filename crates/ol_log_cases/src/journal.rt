//! The journal that is kept in memory.

use ol_journal::Journal;
use ol_values::Record;
use std::test::Fail;

#[test]
fn journal_counts_from_its_first_position(rt: HostRuntime) -> Result<(), Fail> {
    let mut journal = Journal::new(rt.alloc(), 258);
    assert_eq!(rt; (journal.first(), journal.len()), (258, 0));
    journal.reserve(3)?;
    journal.push(Record::Begin { txn: 258 });
    journal.push(Record::Commit { txn: 258 });
    journal.push(Record::Begin { txn: 260 });
    assert_eq!(rt; (journal.first(), journal.len()), (258, 3));
    Ok(())
}
