//! The lines of a script.

ghost use Rattle.std.specs.Prelude.{◌≡◌, ◌++◌, ◌∷◌, [], OnOk, OnErr};

use crate::{Actor, Label, Labels, NoMemory, Row, Target};
use std::alloc::Global;
use std::marker::Model;

/// What a script line asks for. A list of spaces has different names.
#[derive(Drop)]
pub enum Form {
    /// `begin`
    Begin,
    /// `insert REG SPACE ROW`
    Insert { reg: u8, space: Label, row: Row },
    /// `update REF ROW`
    Update { target: Target, row: Row },
    /// `delete REF`
    Delete { target: Target },
    /// `read REF`
    Read { target: Target },
    /// `list SPACE PAGE`
    List { space: Label, page: u32 },
    /// `commit`
    Commit,
    /// `rollback`
    Rollback,
    /// `start LEVEL SPACE..`: an archive begins.
    Start { level: u8, spaces: Labels },
    /// `turn N`: an archive takes up to so many pages.
    Turn { count: u16 },
    /// `end`: an archive ends.
    End,
    /// `cancel`: an archive is given up.
    Cancel,
    /// `archive LEVEL SPACE..`: an archive from its start to its end.
    Archive { level: u8, spaces: Labels },
    /// `backup N`: up to so many log files are backed up.
    Backup { count: u16 },
    /// `switch`: the current log file is closed.
    Switch,
    /// `clean N`: up to so many changed pages are written.
    Clean { count: u16 },
    /// `checkpoint`
    Checkpoint,
    /// `restore SPACE`: a space that is down is restored while the others are on line.
    Restore { space: Label },
}

impl Form {
    /// The same form again.
    pub fn copy(&self) -> Form
        ensures { result ≡ self.now }
    {
        match *self {
            Form::Begin => Form::Begin,
            Form::Insert {
                reg,
                space,
                ref row,
            } => Form::Insert {
                reg,
                space,
                row: row.copy(),
            },
            Form::Update { target, ref row } => Form::Update {
                target,
                row: row.copy(),
            },
            Form::Delete { target } => Form::Delete { target },
            Form::Read { target } => Form::Read { target },
            Form::List { space, page } => Form::List { space, page },
            Form::Commit => Form::Commit,
            Form::Rollback => Form::Rollback,
            Form::Start { level, spaces } => Form::Start { level, spaces },
            Form::Turn { count } => Form::Turn { count },
            Form::End => Form::End,
            Form::Cancel => Form::Cancel,
            Form::Archive { level, spaces } => Form::Archive { level, spaces },
            Form::Backup { count } => Form::Backup { count },
            Form::Switch => Form::Switch,
            Form::Clean { count } => Form::Clean { count },
            Form::Checkpoint => Form::Checkpoint,
            Form::Restore { space } => Form::Restore { space },
        }
    }
}

/// A script line: its actor, its number in the script from 1, and its form.
#[derive(Drop)]
pub struct Line {
    pub actor: Actor,
    pub number: u16,
    pub form: Form,
}

impl Line {
    /// The same line again.
    pub fn copy(&self) -> Line
        ensures { result ≡ self.now }
    {
        Line {
            actor: self.actor,
            number: self.number,
            form: self.form.copy(),
        }
    }
}

/// The lines of a script in order, as which contracts see them.
#[derive(Drop)]
pub struct Lines {
    lines: Vec<Line>,
}

impl Model for Lines {
    ghost use Rattle.std.specs.Prelude.{List};
    ghost use Rattle.ol_values.specs.declared.line.Line.{Line};

    ghost Value = { List Line };

    ghost view = { λ l. l.lines.items };
}

impl Lines {
    /// No line yet. It takes no memory.
    pub fn new(alloc: Global) -> Lines
        ensures { result ≡ [] }
    {
        Lines {
            lines: Vec::new(alloc),
        }
    }

    /// The lines in order.
    pub fn as_slice(&self) -> &[Line]
        ensures { result.now ≡ self.now }
    {
        &self.lines
    }

    /// One line more. At `NoMemory` the list stays as it was.
    pub fn push(&mut self, line: Line) -> Result<(), NoMemory>
        ensures ok { OnOk result (self.new ≡ self.old ++ line ∷ []) }
        ensures err { OnErr result (self.new ≡ self.old) }
    {
        self.lines.push(line)?;
        Ok(())
    }
}
