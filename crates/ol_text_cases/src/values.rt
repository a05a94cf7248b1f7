//! Lists that hold their values in place, and lists of lines and entries.

use ol_values::{Actor, Entry, Event, Form, History, Label, Labels, Line, Lines, Reply};
use std::test::Fail;

/// Whether a label has these bytes.
pub fn is_label(label: &Label, bytes: &[u8]) -> bool {
    label.as_slice() == bytes
}

/// Whether these are the labels `root` and `data1`.
fn are_root_and_data1(labels: &Labels) -> bool {
    match labels.as_slice() {
        [root, data1] => is_label(root, b"root") && is_label(data1, b"data1"),
        _ => false,
    }
}

#[test]
fn labels_keep_what_is_pushed(rt: HostRuntime) -> Result<(), Fail> {
    let mut labels = Labels::new();
    labels.push(Label::new(b"root").ok_or("no label")?);
    labels.push(Label::new(b"data1").ok_or("no label")?);
    assert!(rt; are_root_and_data1(&labels));
    Ok(())
}

/// Whether these are the lines of numbers 1 and 2.
fn are_lines_1_and_2(lines: &Lines) -> bool {
    match lines.as_slice() {
        [one, two] => (one.number, two.number) == (1, 2),
        _ => false,
    }
}

/// Whether the one reply is that archive 7 was cancelled.
fn is_cancelled_7(history: &History) -> bool {
    match history.as_slice() {
        [entry] => matches!(entry.reply, Reply::Cancelled { number: 7 }),
        _ => false,
    }
}

#[test]
fn lines_and_histories_keep_what_is_pushed(rt: HostRuntime) -> Result<(), Fail> {
    let actor = Actor::Session(1);
    let mut lines = Lines::new(rt.alloc());
    for number in [1, 2] {
        let form = Form::Begin;
        lines.push(Line {
            actor,
            number,
            form,
        })?;
    }
    assert!(rt; are_lines_1_and_2(&lines));
    let mut history = History::new(rt.alloc());
    history.push(Entry {
        number: 1,
        actor,
        line: 1,
        event: Event::ArchiveTurn,
        reply: Reply::Cancelled { number: 7 },
        start: 0,
        calls: 0,
    })?;
    assert!(rt; is_cancelled_7(&history));
    Ok(())
}
