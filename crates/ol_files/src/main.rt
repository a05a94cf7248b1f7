//! The program: a command over chunk files, volume files, standard input and standard output.
#![tactic(auto)]

ghost use Rattle.std.specs.Prelude.{◌≡◌, ◌∷◌, ◌-◌, ◌^◌, [], All, IfOk, length, map, min, replicate};
ghost use Rattle.std.specs.Process.{exit_status};
ghost use Rattle.ol_online.specs.Status.{code_of};

use ol_devices::{
    FileDisk, FileDrive, FileShelf, OptionFault, Options, ReaderSource, WriterSink, hold_streams,
    parse_options,
};
use ol_online::{Rig, Status, Words, command, write_status};
use std::alloc::{AllocError, Global};
use std::env;
use std::io::{BufReader, ErrorKind};
use std::process::ExitCode;

/// The arguments of the command line without the program's name; None where one of them is not text.
fn arguments(rt: &HostRuntime) -> Result<Option<Vec<String>>, AllocError> {
    let mut given = Vec::new(rt.alloc());
    let arguments = match env::args(rt) {
        Ok(arguments) => arguments,
        Err(error) if error.kind() == ErrorKind::OutOfMemory => return Err(AllocError),
        Err(_) => return Ok(None),
    };
    for argument in arguments.skip(1) {
        given.push(argument)?;
    }
    Ok(Some(given))
}

/// The words of a command.
fn words_of(alloc: Global, given: &[String]) -> Result<Words, AllocError> {
    let mut words = Words::new(alloc);
    for word in given {
        words.push(word.as_str())?;
    }
    Ok(words)
}

/// The drives 0 to 4 of a folder.
fn five_drives(rt: &HostRuntime, options: &Options) -> Result<Vec<FileDrive>, AllocError>
    ensures five { IfOk result (λ drives. length drives.items ≡ 5) }
    ensures unmounted { IfOk result (λ drives. All (λ drive. drive.tape.room ≡ 0) drives.items) }
    ensures numbers { IfOk result (λ drives. map (λ drive. drive.number) drives.items ≡ 0 ∷ 1 ∷ 2 ∷ 3 ∷ 4 ∷ []) }
    ensures folder { IfOk result (λ drives. All (λ drive. drive.dir ≡ options.now.dir.now) drives.items) }
{
    let drives = [
        drive(rt, options, 0)?,
        drive(rt, options, 1)?,
        drive(rt, options, 2)?,
        drive(rt, options, 3)?,
        drive(rt, options, 4)?,
    ];
    Ok(Vec::from_array(rt.alloc(), drives)?)
}

/// The drive of this number.
fn drive(rt: &HostRuntime, options: &Options, number: u8) -> Result<FileDrive, AllocError>
    ensures unmounted { IfOk result (λ drive. drive.tape.room ≡ 0) }
    ensures number { IfOk result (λ drive. drive.number ≡ number) }
    ensures folder { IfOk result (λ drive. drive.dir ≡ options.now.dir.now) }
    ensures volumes { IfOk result (λ drive. drive.tape.rooms ≡ replicate (min options.now.volumes (2 ^ 32 - 1 - drive.tape.mounted)) options.now.blocks) }
{
    FileDrive::new(rt, options.dir, number, options.blocks, options.volumes)
}

/// Writes the status of a command line that is none, and gives it.
fn refuse(rt: &HostRuntime) -> Status
    ensures { result ≡ Status.BadWords }
{
    let mut sink = WriterSink::new(rt.stdout());
    // where it can't be written, the exit status still says it
    let _ = write_status(&mut sink, Status::BadWords);
    let _ = sink.flush();
    Status::BadWords
}

/// Carries out the command that stands behind the options.
fn carry_out(rt: &HostRuntime, options: &Options) -> Result<Status, AllocError> {
    let alloc = rt.alloc();
    let words = words_of(alloc, options.words)?;
    let disk = FileDisk::open(rt, options.dir, &options.chunks)?;
    let drives = five_drives(rt, options)?;
    let shelf = FileShelf::open(rt, options.dir)?;
    let Ok(input) = BufReader::new(alloc, rt.stdin()) else {
        return Err(AllocError);
    };
    let mut source = ReaderSource::new(input);
    let mut sink = WriterSink::new(rt.stdout());
    let rig = Rig {
        disk,
        drives,
        shelf,
    };
    let (rig, status, _) = command(alloc, &words, rig, &mut source, &mut sink);
    let Rig {
        disk: _,
        drives: _,
        shelf: _,
    } = rig;
    // what is held back is part of the output
    if sink.flush().is_err() && status == Status::Ok {
        return Ok(Status::WriteFault);
    }
    Ok(status)
}

/// Runs the command of the command line.
fn run(rt: &HostRuntime) -> Result<Status, AllocError> {
    let Some(arguments) = arguments(rt)? else {
        return Ok(refuse(rt));
    };
    match parse_options(rt.alloc(), &arguments) {
        Ok(options) => carry_out(rt, &options),
        Err(OptionFault::BadOptions) => Ok(refuse(rt)),
        Err(OptionFault::NoMemory) => Err(AllocError),
    }
}

/// The exit status that tells a status.
fn exit_code(status: Status) -> ExitCode
    ensures { exit_status result ≡ code_of status }
{
    ExitCode::from(status.code())
}

fn main(rt: HostRuntime) -> ExitCode {
    let _held = hold_streams(&rt);
    match run(&rt) {
        Ok(status) => exit_code(status),
        Err(AllocError) => {
            // where it can't be written, the exit status still says it
            let _ = println!(rt; "no memory");
            exit_code(Status::NoMemory)
        }
    }
}
