//! A script, read from its text.

ghost use Rattle.std.specs.Prelude.{◌≡◌, ◌≤◌, ℕ, List, Ok, Err, Some, All, IfOk, IsErrOf, take};
ghost use Rattle.std.specs.Result.{IsOk, result_err};
ghost use Rattle.std.specs.Io.KnownBytes.{Consumes};
ghost use Rattle.ol_rules.specs.Scripts.{Ascends, lines_of};
ghost use Rattle.ol_values.specs.Text.{same_actor};
ghost use Rattle.ol_ports.specs.Causes.{Rose};
ghost use Rattle.ol_script.specs.Script.{script_limit, script_of};
ghost use Rattle.ol_script.specs.Spelling.{AreLinesFrom, IsLine};
ghost use Rattle.ol_script.specs.Sources.{WasRead};

use crate::reader::LineReader;
use ol_ports::{ReadError, Source, read_all};
use ol_values::{Actor, Line, Lines, NoMemory};
use std::alloc::Global;
use std::marker::Model;

/// The most bytes that are read of a script: those of 65,535 lines with their line feeds, and one more.
const SCRIPT_LIMIT: usize = 65_535 * 256 + 1;

/// Why there is no script.
#[derive(Clone, Copy, Debug, PartialEq, Eq)]
pub enum ScriptFault {
    /// The first line off the grammar, from 1.
    BadScript { line: u32 },
    /// A read of the source failed.
    ReadFault,
    /// Memory was refused.
    NoMemory,
}

/// A script, which contracts see as its lines in order. They are lines that a script may have.
#[derive(Drop)]
pub struct Script {
    alloc: Global,
    lines: Lines,
}

impl Model for Script {
    ghost use Rattle.std.specs.Prelude.{List};
    ghost use Rattle.ol_values.specs.declared.line.Line.{Line};

    ghost Value = { List Line };

    ghost use Rattle.ol_script.specs.Spelling.{AreLinesFrom};

    ghost view = { λ s. s.lines };

    ghost invariant = { λ s. AreLinesFrom 1 s.lines };
}

impl Script {
    /// The lines in order, with their numbers from 1 on.
    pub fn as_slice(&self) -> &[Line]
        ensures value { result.now ≡ self.now }
        ensures lines { AreLinesFrom 1 self.now }
        ensures rising { Ascends self.now }
        ensures forms { All IsLine self.now }
    {
        self.lines.as_slice()
    }

    /// The lines of an actor in order.
    pub fn lines(&self, actor: Actor) -> Result<Lines, NoMemory>
        ensures { IfOk result (λ lines. lines ≡ lines_of actor self.now) }
    {
        let mut lines = Lines::new(self.alloc);
        for line in self.as_slice() {
            if is_same(line.actor, actor) {
                lines.push(line.copy())?;
            }
        }
        Ok(lines)
    }
}

fn is_same(one: Actor, other: Actor) -> bool
    ensures { result ≡ same_actor one other }
{
    one == other
}

/// Reads the script that a source gives: to its end, but no more than 65,535 times 256 bytes and one more,
/// which is more than any script has.
///
/// `BadScript` names the first line off the grammar, and comes exactly where there is one. `ReadFault` comes
/// only where the source's count of faults rose in this call; on `Ok`, `BadScript` and `NoMemory` the count
/// is as it was. What was read before a `ReadFault` or `NoMemory` is gone from the source. `NoMemory` says
/// nothing of the lines, since memory is wanted for the text too, before a line is known.
pub fn parse<S: Source>(alloc: Global, source: &mut S) -> Result<Script, ScriptFault>
    ensures script { (left : List ℕ) → S.left source.old ≡ Some left → IfOk result (λ s. script_of left ≡ Ok s) }
    ensures bad { (left : List ℕ) (n : ℕ) → S.left source.old ≡ Some left → result ≡ Err (ScriptFault.BadScript n) → script_of left ≡ Err n }
    ensures rising { IfOk result (λ s. Ascends s) }
    ensures forms { IfOk result (λ s. All IsLine s) }
    ensures rest { (left : List ℕ) → S.left source.old ≡ Some left → WasRead result → Consumes (S.left source.old) (S.left source.new) (take script_limit left) }
    ensures later { S.fault_count source.old ≤ S.fault_count source.new }
    ensures cause { IsErrOf result ScriptFault.ReadFault → Rose (S.fault_count source.old) (S.fault_count source.new) }
    ensures kept { (IsErrOf result ScriptFault.ReadFault → ⊥) → S.fault_count source.new ≡ S.fault_count source.old }
{
    let text = match read_all(alloc, source, SCRIPT_LIMIT) {
        Ok(text) => text,
        Err(ReadError::Failed) => return Err(ScriptFault::ReadFault),
        Err(ReadError::NoMemory) => return Err(ScriptFault::NoMemory),
    };
    parse_text(alloc, &text)
}

/// Reads a script from its text. `BadScript` names the first line off the grammar, and comes exactly where
/// there is one, whether or not memory is there: what stands behind the last line feed is off the grammar,
/// unless it is empty, and so is line 65,536. No `ReadFault` comes. The time is linear in the text.
pub fn parse_text(alloc: Global, text: &[u8]) -> Result<Script, ScriptFault>
    ensures script { IfOk result (λ s. script_of text.now ≡ Ok s) }
    ensures bad { (n : ℕ) → result ≡ Err (ScriptFault.BadScript n) → script_of text.now ≡ Err n }
    ensures memory { IsErrOf result ScriptFault.NoMemory → IsOk (script_of text.now) }
    ensures given { result ≡ Err ScriptFault.ReadFault → ⊥ }
    ensures rising { IfOk result (λ s. Ascends s) }
    ensures forms { IfOk result (λ s. All IsLine s) }
{
    // all lines are judged before memory is wanted for one
    if let Err(line) = judge(text) {
        return Err(ScriptFault::BadScript { line });
    }
    match collect(alloc, text) {
        Ok(lines) => Ok(Script { alloc, lines }),
        Err(_) => Err(ScriptFault::NoMemory),
    }
}

// Whether a text is a script; the error is the number of the first line off the grammar. It takes no memory.
fn judge(text: &[u8]) -> Result<(), u32>
    ensures { result_err result ≡ result_err (script_of text.now) }
{
    let mut reader = LineReader::new(text);
    while reader.next()?.is_some() {}
    Ok(())
}

// The lines of a script.
fn collect(alloc: Global, text: &[u8]) -> Result<Lines, NoMemory>
    requires { IsOk (script_of text.now) }
    ensures { IfOk result (λ lines. script_of text.now ≡ Ok lines) }
{
    let mut lines = Lines::new(alloc);
    let mut reader = LineReader::new(text);
    while let Ok(Some(line)) = reader.next() {
        lines.push(line)?;
    }
    Ok(lines)
}
