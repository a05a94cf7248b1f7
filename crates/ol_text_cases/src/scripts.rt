//! Scripts: the lines of each form, and the texts of entries.

use crate::configs::SMALL_CONFIG;
use crate::values::is_label;
use ol_chunks::{ChunkTable, parse_config};
use ol_script::{ENTRY_LIMIT, Script, ScriptFault, parse_text, text};
use ol_values::{Actor, Entry, Event, Form, Labels, Line, Reply, Rid, Row, Target};
use std::process::Abort;
use std::test::Fail;

/// A row of the most bytes.
const LONGEST_ROW: &[u8] = b"zzzzzzzzzzzzzzzzzzzzzzzzzzzzzzzzzzzzzzzzzzzzzzzzzzzzzzzzzzzzzzz";

/// A script of session 1, whose lines are of all its forms.
const SESSION_SCRIPT: &[u8] = b"s1 begin\n\
    s1 insert r0 data1 =ann\n\
    s1 insert r9 nosuch =\n\
    s1 insert r0 a =zzzzzzzzzzzzzzzzzzzzzzzzzzzzzzzzzzzzzzzzzzzzzzzzzzzzzzzzzzzzzzz\n\
    s1 insert r0 a ==!~\n\
    s1 update r7 =b\n\
    s1 update data1:0:30 =\n\
    s1 delete r0\n\
    s1 delete root:99999:99999\n\
    s1 read r1\n\
    s1 read r1:0:0\n\
    s1 list data1 0\n\
    s1 list abcdefg9 99999\n\
    s1 commit\n\
    s1 rollback\n";

/// A script of the other actors.
const ENGINE_SCRIPT: &[u8] = b"s16 begin\n\
    a1 start 0 root data1\n\
    a2 start 2 data1\n\
    a1 turn 1\n\
    a4 turn 65535\n\
    a1 end\n\
    a1 cancel\n\
    a4 archive 1 nosuch root\n\
    l1 backup 9\n\
    l1 switch\n\
    f1 clean 4\n\
    c1 checkpoint\n\
    w1 restore data1\n";

/// A row as a line names it.
#[derive(Clone, Copy)]
enum Named {
    Reg(u8),
    At(&'static [u8], u32, u32),
}

/// What a line asks for, with names and rows as their bytes.
#[derive(Clone, Copy)]
enum Asked {
    Begin,
    Insert(u8, &'static [u8], &'static [u8]),
    Update(Named, &'static [u8]),
    Delete(Named),
    Read(Named),
    List(&'static [u8], u32),
    Commit,
    Rollback,
    Start(u8, &'static [&'static [u8]]),
    Turn(u16),
    End,
    Cancel,
    Archive(u8, &'static [&'static [u8]]),
    Backup(u16),
    Switch,
    Clean(u16),
    Checkpoint,
    Restore(&'static [u8]),
}

/// Whether a line names this row.
fn is_named(target: &Target, named: Named) -> bool {
    match (target, named) {
        (Target::Reg(reg), Named::Reg(other)) => *reg == other,
        (Target::At { space, page, slot }, Named::At(name, other_page, other_slot)) => {
            is_label(space, name) && (*page, *slot) == (other_page, other_slot)
        }
        _ => false,
    }
}

/// Whether a row has these bytes.
fn is_row(row: &Row, bytes: &[u8]) -> bool {
    row.as_slice() == bytes
}

/// Whether labels have these bytes.
fn are_labels(labels: &Labels, names: &[&[u8]]) -> bool {
    let labels = labels.as_slice();
    labels.len() == names.len()
        && labels
            .iter()
            .zip(names)
            .all(|(label, name)| is_label(label, name))
}

/// Whether a line of a session asks for this.
fn is_asked(form: &Form, asked: Asked) -> bool {
    match (form, asked) {
        (Form::Begin, Asked::Begin) => true,
        (Form::Insert { reg, space, row }, Asked::Insert(other, name, bytes)) => {
            *reg == other && is_label(space, name) && is_row(row, bytes)
        }
        (Form::Update { target, row }, Asked::Update(named, bytes)) => {
            is_named(target, named) && is_row(row, bytes)
        }
        (Form::Delete { target }, Asked::Delete(named)) => is_named(target, named),
        (Form::Read { target }, Asked::Read(named)) => is_named(target, named),
        (Form::List { space, page }, Asked::List(name, other)) => {
            is_label(space, name) && *page == other
        }
        (Form::Commit, Asked::Commit) => true,
        (Form::Rollback, Asked::Rollback) => true,
        _ => is_asked_of_engine(form, asked),
    }
}

/// Whether a line of another actor asks for this.
fn is_asked_of_engine(form: &Form, asked: Asked) -> bool {
    match (form, asked) {
        (Form::Start { level, spaces }, Asked::Start(other, names)) => {
            *level == other && are_labels(spaces, names)
        }
        (Form::Turn { count }, Asked::Turn(other)) => *count == other,
        (Form::End, Asked::End) => true,
        (Form::Cancel, Asked::Cancel) => true,
        (Form::Archive { level, spaces }, Asked::Archive(other, names)) => {
            *level == other && are_labels(spaces, names)
        }
        (Form::Backup { count }, Asked::Backup(other)) => *count == other,
        (Form::Switch, Asked::Switch) => true,
        (Form::Clean { count }, Asked::Clean(other)) => *count == other,
        (Form::Checkpoint, Asked::Checkpoint) => true,
        (Form::Restore { space }, Asked::Restore(name)) => is_label(space, name),
        _ => false,
    }
}

const ONE: Actor = Actor::Session(1);

/// The lines of the script of session 1.
const SESSION_LINES: &[(Actor, Asked)] = &[
    (ONE, Asked::Begin),
    (ONE, Asked::Insert(0, b"data1", b"ann")),
    (ONE, Asked::Insert(9, b"nosuch", b"")),
    (ONE, Asked::Insert(0, b"a", LONGEST_ROW)),
    (ONE, Asked::Insert(0, b"a", b"=!~")),
    (ONE, Asked::Update(Named::Reg(7), b"b")),
    (ONE, Asked::Update(Named::At(b"data1", 0, 30), b"")),
    (ONE, Asked::Delete(Named::Reg(0))),
    (ONE, Asked::Delete(Named::At(b"root", 99999, 99999))),
    (ONE, Asked::Read(Named::Reg(1))),
    (ONE, Asked::Read(Named::At(b"r1", 0, 0))),
    (ONE, Asked::List(b"data1", 0)),
    (ONE, Asked::List(b"abcdefg9", 99999)),
    (ONE, Asked::Commit),
    (ONE, Asked::Rollback),
];

/// The lines of the script of the other actors.
const ENGINE_LINES: &[(Actor, Asked)] = &[
    (Actor::Session(16), Asked::Begin),
    (Actor::Archiver(1), Asked::Start(0, &[b"root", b"data1"])),
    (Actor::Archiver(2), Asked::Start(2, &[b"data1"])),
    (Actor::Archiver(1), Asked::Turn(1)),
    (Actor::Archiver(4), Asked::Turn(65535)),
    (Actor::Archiver(1), Asked::End),
    (Actor::Archiver(1), Asked::Cancel),
    (Actor::Archiver(4), Asked::Archive(1, &[b"nosuch", b"root"])),
    (Actor::Backer, Asked::Backup(9)),
    (Actor::Backer, Asked::Switch),
    (Actor::Flusher, Asked::Clean(4)),
    (Actor::Checkpointer, Asked::Checkpoint),
    (Actor::Warmer, Asked::Restore(b"data1")),
];

/// The first line of a script that is not as it should be, from 1; None where there is none.
fn first_other(script: &Script, wanted: &[(Actor, Asked)]) -> Option<usize> {
    let lines = script.as_slice();
    if lines.len() != wanted.len() {
        return Some(lines.len());
    }
    for (index, (line, (actor, asked))) in lines.iter().zip(wanted).enumerate() {
        let is_here = usize::from(line.number) == index + 1 && line.actor == *actor;
        if !is_here || !is_asked(&line.form, *asked) {
            return Some(index + 1);
        }
    }
    None
}

#[test]
fn lines_are_of_their_forms(rt: HostRuntime) -> Result<(), Fail> {
    for (bytes, wanted) in [
        (SESSION_SCRIPT, SESSION_LINES),
        (ENGINE_SCRIPT, ENGINE_LINES),
    ] {
        let Ok(script) = parse_text(rt.alloc(), bytes) else {
            panic!(rt; "a script is refused");
        };
        assert_eq!(rt; first_other(&script, wanted), None);
    }
    Ok(())
}

/// The lines of some actors in a script of six lines.
const NUMBERS: &[(Actor, &[u16])] = &[
    (Actor::Session(1), &[1, 6]),
    (Actor::Session(2), &[2, 5]),
    (Actor::Session(12), &[3]),
    (Actor::Archiver(1), &[4]),
    (Actor::Archiver(2), &[]),
];

/// Whether the lines of an actor have these numbers.
fn has_numbers(script: &Script, actor: Actor, numbers: &[u16]) -> bool {
    match script.lines(actor) {
        Ok(lines) => are_numbers(lines.as_slice(), numbers),
        Err(_) => false,
    }
}

/// Whether lines have these numbers.
fn are_numbers(lines: &[Line], numbers: &[u16]) -> bool {
    lines.len() == numbers.len()
        && lines
            .iter()
            .zip(numbers)
            .all(|(line, number)| line.number == *number)
}

#[test]
fn lines_of_an_actor_keep_their_numbers(rt: HostRuntime) -> Result<(), Fail> {
    let text = b"s1 begin\ns2 begin\ns12 begin\na1 end\ns2 commit\ns1 rollback\n";
    let Ok(script) = parse_text(rt.alloc(), text) else {
        panic!(rt; "the script is refused");
    };
    for (actor, numbers) in NUMBERS {
        assert!(rt; has_numbers(&script, *actor, numbers), "of {actor:?}");
    }
    Ok(())
}

#[test]
fn script_has_65535_lines_at_most(rt: HostRuntime) -> Result<(), Fail> {
    let mut text = String::new(rt.alloc());
    for _ in 0..65535u32 {
        text.push_str("a1 end\n")?;
    }
    match parse_text(rt.alloc(), text.as_bytes()) {
        Ok(script) => assert_eq!(rt; script.as_slice().len(), 65535),
        Err(fault) => panic!(rt; "65,535 lines: {fault:?}"),
    }
    text.push_str("a1 end\n")?;
    match parse_text(rt.alloc(), text.as_bytes()) {
        Ok(_) => panic!(rt; "65,536 lines are taken"),
        Err(fault) => assert_eq!(rt; fault, ScriptFault::BadScript { line: 65536 }),
    }
    Ok(())
}

const RID: Rid = Rid {
    space: 1,
    page: 7,
    slot: 30,
};

const SESSION: Actor = Actor::Session(1);

/// Replies with their texts, of the small configuration.
const REPLIES: [(Reply, &str); 48] = [
    (
        Reply::Begun {
            txn: 4611686018427387904,
        },
        "begun 4611686018427387904",
    ),
    (Reply::At { rid: RID }, "rid data1:7:30"),
    (Reply::Changed { rid: RID }, "changed data1:7:30"),
    (Reply::Slots { bits: 0 }, "slots"),
    (Reply::Slots { bits: 0x4000_0405 }, "slots 0 2 10 30"),
    (Reply::Committed { position: 3 }, "committed 3"),
    (Reply::Undone { rid: RID }, "undone data1:7:30"),
    (Reply::RolledBack { position: 29 }, "rolledback 29"),
    (Reply::Checkpointed { position: 6 }, "checkpointed 6"),
    (Reply::Cleaned { space: 1, page: 7 }, "cleaned data1:7"),
    (Reply::NothingDirty, "nothing"),
    (
        Reply::Started {
            number: 2,
            cut: 3,
            pages: 4,
        },
        "started 2 3 4",
    ),
    (
        Reply::PageIs {
            space: 0,
            page: 65535,
        },
        "page root:65535",
    ),
    (Reply::AllTaken, "alltaken"),
    (
        Reply::Archived {
            number: 2,
            cut: 3,
            pages: 4,
        },
        "archived 2 3 4",
    ),
    (Reply::Cancelled { number: 2 }, "cancelled 2"),
    (
        Reply::Picked {
            uniq: 18446744073709551615,
            pages: 4,
        },
        "picked 18446744073709551615 4",
    ),
    (
        Reply::LogPage {
            uniq: 18446744073709551615,
            index: 9,
        },
        "logpage 18446744073709551615 9",
    ),
    (
        Reply::Backed {
            uniq: 18446744073709551615,
        },
        "backed 18446744073709551615",
    ),
    (Reply::NothingToBack, "nothing"),
    (Reply::Switched { uniq: 1 }, "switched 1"),
    (Reply::Warming { space: 1, upto: 18 }, "warming data1 18"),
    (Reply::WarmLog { first: 12 }, "warmlog 12"),
    (Reply::Put { page: 7 }, "put 7"),
    (Reply::Up { space: 1 }, "up data1"),
    (Reply::NoTxn, "notxn"),
    (Reply::TxnOpen, "txnopen"),
    (Reply::NoRow, "norow"),
    (Reply::RowLocked { holder: 16 }, "rowlocked 16"),
    (Reply::SpaceFull { space: 1 }, "spacefull data1"),
    (Reply::SpaceDown { space: 0 }, "spacedown root"),
    (Reply::NoSpace, "nospace"),
    (Reply::LogsFull { uniq: 1 }, "logsfull 1"),
    (Reply::Unbound, "unbound"),
    (Reply::Archiving { archiver: 4 }, "archiving 4"),
    (Reply::NoParent { space: 1, level: 0 }, "noparent data1 0"),
    (Reply::NoArchive, "noarchive"),
    (Reply::BeforeFull { entry: 8 }, "beforefull 8"),
    (Reply::PagesLeft { count: 2 }, "pagesleft 2"),
    (Reply::TapeFault { drive: 4, count: 3 }, "tapefault 4 3"),
    (Reply::OutOfTape { drive: 4 }, "outoftape 4"),
    (Reply::NotDown { space: 1 }, "notdown data1"),
    (
        Reply::MissingLevel {
            space: 1,
            level: 1,
            archive: 2,
        },
        "missinglevel data1 1 2",
    ),
    (Reply::MissingLog { position: 13 }, "missinglog 13"),
    (
        Reply::DamagedVolume {
            drive: 4,
            volume: 5,
            block: 6,
        },
        "damagedvolume 4 5 6",
    ),
    (Reply::ShelfFault { count: 1 }, "shelffault 1"),
    (Reply::DiskFault { chunk: 31 }, "diskfault 31"),
    (
        Reply::BadRead {
            chunk: 1,
            page: 70000,
        },
        "badread 1 70000",
    ),
];

/// Other actors and line numbers, with a reply and the text of the whole entry.
const ENTRIES: [(Actor, u16, Reply, &str); 8] = [
    (
        Actor::Session(16),
        1,
        Reply::Stopped { entry: 3 },
        "1 s16 stopped 3",
    ),
    (
        Actor::Archiver(4),
        65535,
        Reply::Stopped { entry: 3 },
        "65535 a4 stopped 3",
    ),
    (
        Actor::Backer,
        9,
        Reply::Stopped { entry: 3 },
        "9 l1 stopped 3",
    ),
    (
        Actor::Flusher,
        10,
        Reply::Stopped { entry: 3 },
        "10 f1 stopped 3",
    ),
    (
        Actor::Checkpointer,
        99,
        Reply::Stopped { entry: 3 },
        "99 c1 stopped 3",
    ),
    (
        Actor::Warmer,
        100,
        Reply::Stopped { entry: 3 },
        "100 w1 stopped 3",
    ),
    (Actor::Session(2), 4, Reply::JournalFull, "4 s2 journalfull"),
    (Actor::Session(2), 5, Reply::BadRid, "5 s2 badrid"),
];

/// Rows that were read, with their texts.
const ROWS: &[(&[u8], &str)] = &[
    (b"a~! \\\x00\x7f\xff", "row =a~!\\20\\5c\\00\\7f\\ff"),
    (
        LONGEST_ROW,
        "row =zzzzzzzzzzzzzzzzzzzzzzzzzzzzzzzzzzzzzzzzzzzzzzzzzzzzzzzzzzzzzzz",
    ),
    (b"", "row ="),
];

/// Whether the text of an entry of this actor, line and reply is this one behind a front, and then a line feed.
fn is_text(
    table: &ChunkTable,
    actor: Actor,
    line: u16,
    reply: &Reply,
    front: &str,
    wanted: &str,
) -> bool {
    let entry = Entry {
        number: 77,
        actor,
        line,
        event: Event::Begin,
        reply: reply.copy(),
        start: 5,
        calls: 6,
    };
    let mut told = [0xff; ENTRY_LIMIT];
    let length = text(&entry, table, &mut told);
    let (told, _) = told.split_at(length);
    match told.strip_prefix(front.as_bytes()) {
        Some(rest) => rest.strip_suffix(b"\n".as_slice()) == Some(wanted.as_bytes()),
        None => false,
    }
}

/// Whether a reply of session 1 to line 12 has this text.
fn is_reply_text(table: &ChunkTable, reply: &Reply, wanted: &str) -> bool {
    is_text(table, SESSION, 12, reply, "12 s1 ", wanted)
}

/// Whether a row that was read has this text.
fn is_row_text(table: &ChunkTable, bytes: &[u8], wanted: &str) -> bool {
    match Row::new(bytes) {
        Some(row) => is_reply_text(table, &Reply::RowIs { row }, wanted),
        None => false,
    }
}

/// The first of these replies, from 0, that has another text.
fn first_other_reply(table: &ChunkTable, replies: &[(Reply, &str)]) -> Option<usize> {
    for (index, (reply, wanted)) in replies.iter().enumerate() {
        if !is_reply_text(table, reply, wanted) {
            return Some(index);
        }
    }
    None
}

/// The first of these entries, from 0, that has another text.
fn first_other_entry(table: &ChunkTable, entries: &[(Actor, u16, Reply, &str)]) -> Option<usize> {
    for (index, (actor, line, reply, wanted)) in entries.iter().enumerate() {
        if !is_text(table, *actor, *line, reply, "", wanted) {
            return Some(index);
        }
    }
    None
}

/// The first of all replies that has another text.
fn first_other_of_replies(table: &ChunkTable) -> Option<usize> {
    let replies = REPLIES;
    first_other_reply(table, &replies)
}

/// The first of all entries that has another text.
fn first_other_of_entries(table: &ChunkTable) -> Option<usize> {
    let entries = ENTRIES;
    first_other_entry(table, &entries)
}

#[test]
fn entries_have_their_texts(rt: HostRuntime) -> Result<(), Fail> {
    let Ok(table) = parse_config(SMALL_CONFIG.as_bytes()) else {
        panic!(rt; "the configuration is refused");
    };
    assert_eq!(rt; first_other_of_replies(&table), None);
    assert_eq!(rt; first_other_of_entries(&table), None);
    for (row, wanted) in ROWS {
        assert!(rt; is_row_text(&table, row, wanted), "{wanted}");
    }
    Ok(())
}
