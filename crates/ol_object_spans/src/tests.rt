//! A short stream, told by hand: bytes that are no block, a log of one page, and a mark.

use crate::{BlockHead, Held, NoMemory, Object, Place, ReadBlock, StreamScan};
use std::alloc::Global;
use std::test::Fail;

fn place(block: u32) -> Place {
    Place {
        drive: 0,
        volume: 1,
        block,
    }
}

fn head(kind: u8, object: u8, index: u32, a: u64, b: u64) -> BlockHead {
    BlockHead {
        kind,
        object,
        incarnation: 1,
        number: 7,
        index,
        a,
        b,
        c: 0,
    }
}

fn block(head: BlockHead, held: Held) -> Option<ReadBlock> {
    Some(ReadBlock { head, held })
}

/// The objects of a stream in which the log has records of five positions from this one on.
fn told(alloc: Global, first: u64) -> Result<(Vec<Object>, Option<Place>), NoMemory> {
    let mut scan = StreamScan::new(alloc);
    let page = Held::Log {
        uniq: 7,
        first,
        count: 5,
    };
    scan.feed(place(0), None)?;
    scan.feed(place(1), block(head(1, 2, 0, 10, 14), Held::Nothing))?;
    scan.feed(place(2), block(head(3, 2, 1, first, 5), page))?;
    scan.feed(place(3), block(head(4, 2, 2, 10, 14), Held::Nothing))?;
    scan.feed(place(4), block(head(5, 3, 0, 14, 0), Held::Nothing))?;
    Ok(scan.finish())
}

#[test]
fn whole_log_and_mark_are_told(rt: HostRuntime) -> Result<(), Fail> {
    let (objects, outside) = told(rt.alloc(), 10)?;
    assert_eq!(rt; objects.len(), 2);
    if let [log, mark] = objects.as_slice() {
        assert_eq!(rt; (log.place, log.blocks, log.bad), (place(1), 3, None));
        assert_eq!(rt; (mark.place, mark.blocks, mark.bad), (place(4), 1, None));
    }
    assert_eq!(rt; outside, Some(place(0)));
    Ok(())
}

#[test]
fn gap_in_a_log_is_told(rt: HostRuntime) -> Result<(), Fail> {
    let (objects, _) = told(rt.alloc(), 11)?;
    if let [log, _] = objects.as_slice() {
        assert_eq!(rt; log.bad, Some(place(2)));
    }
    assert_eq!(rt; objects.len(), 2);
    Ok(())
}
