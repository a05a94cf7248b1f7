//! The archive line: the turns of an archive from its start to its end, with its blocks on tape.

ghost use Rattle.std.specs.Bool.{OnTrue};
ghost use Rattle.std.specs.Prelude.{◌≡◌, ◌+◌, ◌<◌, ◌≤◌, ℕ, map, IfOk, IfErr, OnOk, OnErr, length, List, [], ◌∷◌, MatchBool};
ghost use Rattle.ol_values.specs.Blocks.{archive_page};
ghost use Rattle.ol_rules.specs.Journal.{page_at};
ghost use Rattle.ol_core.specs.Lines.{Ending, First, Stage};
ghost use Rattle.ol_core.specs.Machine.{Fixed, config_of, formatted, journal_in};
ghost use Rattle.ol_core.specs.Tape.{end_block, head_at};
ghost use Rattle.ol_values.specs.declared.line.Line.{Line};
ghost use Rattle.ol_values.specs.declared.record.Record.{Record};
ghost use Rattle.ol_object.specs.Bytes.{archive_head_bytes, bytes_of, padded_to};
ghost use Rattle.ol_volume.specs.Written.{Puts, EndsPut, Written};
ghost use Rattle.ol_core.specs.Core.{archive_in};
ghost use Rattle.ol_core.specs.Filled.{saved_in};
ghost use Rattle.ol_object.specs.Spaces.{saved_of};
ghost use Rattle.ol_values.specs.Config.{Config, data_pages};
ghost use Rattle.ol_online.specs.Blocks.{IsHead, page_saved};
ghost use Rattle.ol_online.specs.Playing.{EndsPlay, EndsWell, IsArchiveLine, IsBegun, IsNamed, IsReached, IsRunning, IsTurned, IsWaiting, GaveUp, Job, head_of_job, job_of, IsReason, drive_in, faults_in, IsCopying, IsCopied, IsOnTape, IsPaged, Interrupts, RefusesPut, pages_ahead};

use ol_chunks::ChunkTable;
use ol_core::{Core, Running};
use ol_object::{ArchiveHead, BLOCK_LENGTH, Block, PAYLOAD_LENGTH, encode};
use ol_ports::Drive;
use ol_values::{By, Form, Line, NoMemory, Reply, Why};
use ol_volume::{TapeEnd, Writer};
use std::alloc::Global;

/// Why a play ended before its work was done.
#[derive(Clone, Copy, Debug, PartialEq, Eq)]
pub(crate) enum PlayEnd {
    /// Memory was refused.
    NoMemory,
    /// The tape failed, or it ended.
    Tape(TapeEnd),
}

/// The incarnation of a newly formatted installation.
const INCARNATION: u64 = 1;

/// The kinds of the blocks of an archive, and its object.
const HEADER: u8 = 1;

const PAGE: u8 = 2;

const TRAILER: u8 = 4;

const ARCHIVE: u8 = 1;

/// The actor and the number of a line.
pub(crate) fn by_of(line: &Line) -> By
    ensures actor { result.actor ≡ line.now.actor }
    ensures line { result.line ≡ line.now.number }
{
    By {
        actor: line.actor,
        line: line.number,
    }
}

/// The spaces of an archive of level 0 in ascending order, each its number, and 0 for parent and base.
fn saved_spaces(alloc: Global, marks: &[bool; 16]) -> Result<Vec<(u8, u64, u64)>, NoMemory>
    ensures value { IfOk result (λ spaces. map saved_of spaces.items ≡ saved_in marks.now) }
    ensures few { IfOk result (λ spaces. length spaces.items ≤ 16) }
{
    let mut spaces = Vec::new(alloc);
    for (space, marked) in marks.iter().enumerate() {
        if !*marked {
            continue;
        }
        spaces.push((space as u8, 0, 0))?;
    }
    Ok(spaces)
}

/// Writes the archive head of an archive of this configuration as a payload, and gives the number of its
/// bytes.
fn put_head(
    alloc: Global,
    table: &ChunkTable,
    archive: &Running,
    payload: &mut [u8; PAYLOAD_LENGTH],
) -> Result<u32, NoMemory>
    ensures used { IfOk result (λ used. used ≡ length (archive_head_bytes (head_at (formatted table.now).fixed (archive_in archive.now)))) }
    ensures bytes { OnOk result (payload.new ≡ padded_to 2048 (archive_head_bytes (head_at (formatted table.now).fixed (archive_in archive.now)))) }
{
    let spaces = saved_spaces(alloc, &archive.spaces)?;
    let mut text = [0; 1024];
    let length = table.text(&mut text);
    let head = ArchiveHead::new(alloc, &spaces, &text[..length])?;
    Ok(head.encode(payload))
}

/// Makes the header or the trailer of an archive, whose head is the payload.
fn encode_end(
    kind: u8,
    archive: &Running,
    index: u32,
    used: u32,
    payload: &[u8; PAYLOAD_LENGTH],
    block: &mut [u8; BLOCK_LENGTH],
)
    ensures { (c : Config) → IsHead (head_at (formatted c).fixed (archive_in archive.now)) used payload.now → block.new ≡ bytes_of (end_block (formatted c).fixed kind index (archive_in archive.now)) }
{
    let head = Block {
        kind,
        object: ARCHIVE,
        incarnation: INCARNATION,
        number: archive.number,
        index,
        used,
        a: archive.cut,
        b: archive.low,
        c: 0,
    };
    encode(&head, payload, block);
}

/// Makes the block of the data page that passed last.
fn encode_page(core: &Core, archive: &Running, space: u8, page: u16, block: &mut [u8; BLOCK_LENGTH])
    requires space { space < length (config_of core.now.machine).spaces }
    requires page { page < data_pages (config_of core.now.machine) space }
    ensures { block.new ≡ bytes_of (archive_page 1 archive.now.number archive.now.passed (page_saved (journal_in core.now.machine) space page)) }
{
    let head = Block {
        kind: PAGE,
        object: ARCHIVE,
        incarnation: INCARNATION,
        number: archive.number,
        index: archive.passed,
        used: PAYLOAD_LENGTH as u32,
        a: space as u64,
        b: page as u64,
        c: core.stamp(space, page),
    };
    encode(&head, core.image(space, page), block);
}

/// The running archive takes its next page, of which `block` is then the block; false where none is left.
fn next_page(core: &mut Core, line: &Line, block: &mut [u8; BLOCK_LENGTH]) -> Result<bool, NoMemory>
    requires { IsArchiveLine line.now }
    ensures fewer { IfOk result (λ more. OnTrue more (pages_ahead core.new < pages_ahead core.old)) }
    ensures taken { (lines : List Line) (job : Job) (w v : Written) (k : ℕ) → IsCopying lines line.now job w core.old v k → IfOk result (λ more. MatchBool more (IsPaged lines line.now job w core.new v k block.new) (IsCopied lines line.now job w core.new v k)) }
    ensures err { OnErr result (core.new ≡ core.old) }
{
    let Reply::PageIs { space, page } = core.archive_turn(by_of(line))? else {
        return Ok(false);
    };
    let Some(archive) = core.running() else {
        return Ok(false);
    };
    encode_page(core, &archive, space, page, block);
    Ok(true)
}

/// The running archive takes its next page, whose block goes on tape; false where none is left.
fn take_page<T: Drive>(
    core: &mut Core,
    line: &Line,
    writer: &mut Writer<T>,
) -> Result<bool, PlayEnd>
    requires { IsArchiveLine line.now }
    ensures fewer { IfOk result (λ more. OnTrue more (pages_ahead core.new < pages_ahead core.old)) }
    ensures taken { (lines : List Line) (job : Job) (w : Written) (k : ℕ) → IsCopying lines line.now job w core.old writer.old k → IfOk result (λ more. MatchBool more (IsCopying lines line.now job w core.new writer.new (k + 1)) (IsCopied lines line.now job w core.new writer.new k)) }
    ensures ended { (lines : List Line) (job : Job) (w : Written) (k : ℕ) → IsCopying lines line.now job w core.old writer.old k → IfErr result (Interrupts lines line.now job w core.new writer.new) }
{
    let mut block = [0; BLOCK_LENGTH];
    match next_page(core, line, &mut block) {
        Ok(true) => {}
        Ok(false) => return Ok(false),
        Err(_) => return Err(PlayEnd::NoMemory),
    }
    match writer.put(&block) {
        Ok(()) => Ok(true),
        Err(end) => Err(PlayEnd::Tape(end)),
    }
}

/// The running archive takes its pages, to the last, and their blocks go on tape.
fn take_pages<T: Drive>(core: &mut Core, line: &Line, writer: &mut Writer<T>) -> Result<(), PlayEnd>
    requires { IsArchiveLine line.now }
    ensures taken { (lines : List Line) (job : Job) (w : Written) → IsCopying lines line.now job w core.old writer.old 0 → OnOk result ((k : ℕ) × IsCopied lines line.now job w core.new writer.new k) }
    ensures ended { (lines : List Line) (job : Job) (w : Written) → IsCopying lines line.now job w core.old writer.old 0 → IfErr result (Interrupts lines line.now job w core.new writer.new) }
{
    loop {
        match take_page(core, line, writer) {
            Ok(true) => {}
            Ok(false) => return Ok(()),
            Err(end) => return Err(end),
        }
    }
}

/// Puts the header or the trailer of an archive, whose head is the payload, on tape.
fn put_end<T: Drive>(
    writer: &mut Writer<T>,
    kind: u8,
    archive: &Running,
    index: u32,
    used: u32,
    payload: &[u8; PAYLOAD_LENGTH],
) -> Result<(), TapeEnd>
    ensures ok { (c : Config) → IsHead (head_at (formatted c).fixed (archive_in archive.now)) used payload.now → OnOk result (Puts writer.old (bytes_of (end_block (formatted c).fixed kind index (archive_in archive.now))) writer.new) }
    ensures err { (c : Config) → IsHead (head_at (formatted c).fixed (archive_in archive.now)) used payload.now → IfErr result (EndsPut writer.old (bytes_of (end_block (formatted c).fixed kind index (archive_in archive.now))) writer.new) }
{
    let mut block = [0; BLOCK_LENGTH];
    encode_end(kind, archive, index, used, payload, &mut block);
    match writer.put(&block) {
        Ok(()) => Ok(()),
        Err(end) => Err(end),
    }
}

/// The header of an archive of this configuration goes on tape. `payload` is then the archive head, and the
/// result the number of its bytes.
fn put_header<T: Drive>(
    alloc: Global,
    table: &ChunkTable,
    archive: &Running,
    payload: &mut [u8; PAYLOAD_LENGTH],
    writer: &mut Writer<T>,
) -> Result<u32, PlayEnd>
    ensures used { IfOk result (λ used. used ≡ length (archive_head_bytes (head_at (formatted table.now).fixed (archive_in archive.now)))) }
    ensures bytes { OnOk result (payload.new ≡ padded_to 2048 (archive_head_bytes (head_at (formatted table.now).fixed (archive_in archive.now)))) }
    ensures ok { OnOk result (Puts writer.old (bytes_of (end_block (formatted table.now).fixed 1 0 (archive_in archive.now))) writer.new) }
    ensures ended { IfErr result (RefusesPut writer.old (bytes_of (end_block (formatted table.now).fixed 1 0 (archive_in archive.now))) writer.new) }
{
    let used = match put_head(alloc, table, archive, payload) {
        Ok(used) => used,
        Err(_) => return Err(PlayEnd::NoMemory),
    };
    match put_end(writer, HEADER, archive, 0, used, payload) {
        Ok(()) => Ok(used),
        Err(end) => Err(PlayEnd::Tape(end)),
    }
}

/// The trailer of an archive goes on tape, whose blocks are then made durable. The payload is the archive head.
fn put_trailer<T: Drive>(
    core: &Core,
    used: u32,
    payload: &[u8; PAYLOAD_LENGTH],
    writer: &mut Writer<T>,
) -> Result<(), PlayEnd>
    ensures copied { (lines : List Line) (line : Line) (job : Job) (w : Written) (k : ℕ) → IsHead (head_of_job job) used payload.now → IsCopied lines line job w core.now writer.old k → OnOk result (IsOnTape lines line job w core.now writer.new) }
    ensures ended { (lines : List Line) (line : Line) (job : Job) (w : Written) (k : ℕ) → IsHead (head_of_job job) used payload.now → IsCopied lines line job w core.now writer.old k → IfErr result (Interrupts lines line job w core.now writer.new) }
{
    let Some(archive) = core.running() else {
        return Ok(());
    };
    let index = archive.passed + 1;
    match put_end(writer, TRAILER, &archive, index, used, payload) {
        Ok(()) => {}
        Err(end) => return Err(PlayEnd::Tape(end)),
    }
    match writer.finish() {
        Ok(()) => Ok(()),
        Err(end) => Err(PlayEnd::Tape(end)),
    }
}

/// The running archive goes on tape: its header, its pages and its trailer, which are then made durable.
fn copy_archive<T: Drive>(
    alloc: Global,
    core: &mut Core,
    line: &Line,
    writer: &mut Writer<T>,
) -> Result<(), PlayEnd>
    requires { IsArchiveLine line.now }
    ensures copied { (lines : List Line) (job : Job) → IsBegun lines line.now job core.old → OnOk result (IsOnTape lines line.now job writer.old core.new writer.new) }
    ensures ended { (lines : List Line) (job : Job) → IsBegun lines line.now job core.old → IfErr result (Interrupts lines line.now job writer.old core.new writer.new) }
{
    let Some(archive) = core.running() else {
        return Ok(());
    };
    let mut payload = [0; PAYLOAD_LENGTH];
    let used = match put_header(alloc, core.table(), &archive, &mut payload, writer) {
        Ok(used) => used,
        Err(end) => return Err(end),
    };
    match take_pages(core, line, writer) {
        Ok(()) => put_trailer(core, used, &payload, writer),
        Err(end) => Err(end),
    }
}

/// The archive of an archive line begins.
fn begin_archive(core: &mut Core, line: &Line) -> Result<(), NoMemory>
    requires { IsArchiveLine line.now }
    ensures begun { (c : Config) (lines : List Line) → IsNamed c line.now → IsReached c lines core.old (line.now ∷ []) First → IsWaiting c core.old → OnOk result (IsBegun lines line.now (job_of c line.now (journal_in core.old.machine)) core.new) }
    ensures err { OnErr result (core.new ≡ core.old) }
{
    let Form::Archive { level: _, spaces } = &line.form else {
        unreachable!();
    };
    match core.archive_start(by_of(line), spaces) {
        Ok(_) => Ok(()),
        Err(refused) => Err(refused),
    }
}

/// The archive, which stands on tape, ends.
fn end_archive(core: &mut Core, line: &Line) -> Result<(), NoMemory>
    requires { IsArchiveLine line.now }
    ensures journal { OnOk result (journal_in core.new.machine ≡ journal_in core.old.machine) }
    ensures ended { (c : Config) (lines : List Line) → IsReached c lines core.old (line.now ∷ []) Ending → OnOk result (IsReached c lines core.new [] First) }
    ensures err { OnErr result (core.new ≡ core.old) }
{
    match core.archive_end(by_of(line)) {
        Ok(_) => Ok(()),
        Err(refused) => Err(refused),
    }
}

/// The archive, whose tape failed or ended, is given up. `since` is the drive's count of faults as the line
/// began.
fn give_up(core: &mut Core, line: &Line, end: TapeEnd, since: u64) -> Result<(), NoMemory>
    requires { IsArchiveLine line.now }
    ensures gave_up { (lines : List Line) (job : Job) (k : ℕ) (next : Stage) → IsTurned job.config lines core.old (line.now ∷ []) next → IsRunning core.old job k → drive_in end ≡ 1 → OnOk result (GaveUp lines job core.new end) }
    ensures err { OnErr result (core.new ≡ core.old) }
{
    match core.archive_cancel(by_of(line), reason(end, since), faults_of(end)) {
        Ok(_) => Ok(()),
        Err(refused) => Err(refused),
    }
}

/// Why an archive is given up whose tape ended so.
fn reason(end: TapeEnd, since: u64) -> Why
    ensures { IsReason result end }
{
    match end {
        TapeEnd::TapeFault { drive: _, count: _ } => Why::Fault { since },
        TapeEnd::OutOfTape { drive: _ } => Why::Full,
    }
}

/// The count of faults that the tape's end shows.
fn faults_of(end: TapeEnd) -> u64
    ensures { result ≡ faults_in end }
{
    match end {
        TapeEnd::TapeFault { drive: _, count } => count,
        TapeEnd::OutOfTape { drive: _ } => 0,
    }
}

/// The archive, which has begun, goes on tape and ends. Where the tape fails or ends, the archive is given
/// up; `since` is the drive's count of faults as the line began.
fn run_archive<T: Drive>(
    alloc: Global,
    core: &mut Core,
    line: &Line,
    writer: &mut Writer<T>,
    since: u64,
) -> Result<(), PlayEnd>
    requires line { IsArchiveLine line.now }
    requires drive { writer.old.number ≡ 1 }
    ensures well { (lines : List Line) (job : Job) → IsBegun lines line.now job core.old → OnOk result (EndsWell lines job writer.old core.new writer.new) }
    ensures ended { (lines : List Line) (job : Job) → IsBegun lines line.now job core.old → IfErr result (EndsPlay lines job writer.old core.new writer.new) }
{
    match copy_archive(alloc, core, line, writer) {
        Ok(()) => match end_archive(core, line) {
            Ok(()) => Ok(()),
            Err(_) => Err(PlayEnd::NoMemory),
        },
        Err(PlayEnd::NoMemory) => Err(PlayEnd::NoMemory),
        Err(PlayEnd::Tape(end)) => match give_up(core, line, end, since) {
            Ok(()) => Err(PlayEnd::Tape(end)),
            Err(_) => Err(PlayEnd::NoMemory),
        },
    }
}

/// Carries out an archive line: an archive of level 0 of the spaces that it names, from its start to its end. Where the
/// tape fails or ends, the archive is given up.
pub(crate) fn archive<T: Drive>(
    alloc: Global,
    core: &mut Core,
    line: &Line,
    writer: &mut Writer<T>,
) -> Result<(), PlayEnd>
    requires line { IsArchiveLine line.now }
    requires drive { writer.old.number ≡ 1 }
    ensures well { (c : Config) (lines : List Line) → IsNamed c line.now → IsReached c lines core.old (line.now ∷ []) First → IsWaiting c core.old → OnOk result (EndsWell lines (job_of c line.now (journal_in core.old.machine)) writer.old core.new writer.new) }
    ensures ended { (c : Config) (lines : List Line) → IsNamed c line.now → IsReached c lines core.old (line.now ∷ []) First → IsWaiting c core.old → IfErr result (EndsPlay lines (job_of c line.now (journal_in core.old.machine)) writer.old core.new writer.new) }
{
    let since = writer.drive().faults();
    match begin_archive(core, line) {
        Ok(()) => run_archive(alloc, core, line, writer, since),
        Err(_) => Err(PlayEnd::NoMemory),
    }
}
