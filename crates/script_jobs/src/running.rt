//! Runs scripts from a source to a sink, and performs jobs.

ghost use Rattle.std.specs.Prelude.{◌≡◌, IfSome, IfOk, count_by, false};
ghost use Rattle.ed_model.specs.Reading.{reading};
ghost use Rattle.ed_model.specs.Run.{outcomes, is_unmet as is_unmet_outcome};
ghost use Rattle.script_ends.specs.Ends.{TakesAtMost};
ghost use Rattle.script_ends.specs.Answers.{HasCause, WritesNoneAtRead, Puts, PutCause};
ghost use Rattle.script_jobs.specs.Runs.{Prints, WriteCause, text_of_run, new_run, unmet, AnswersRun, AnswersWithoutNotes, AnswersJob};

use crate::notes::{Notes, put_shown};
use ed_types::{Bytes, Command, Outcome};
use editor_session::{Run, Session};
use job_words::Job;
use script_ends::{RunFault, Sink, Source, check_script, list_script, read_script, write_all};
use std::alloc::Global;

/// The capacity that a buffer starts with, in bytes.
const ROOM: usize = 65_536;

/// Returns whether the outcome is that of an `expect` that was not met.
fn is_unmet(outcome: &Outcome) -> bool
    ensures { result ≡ is_unmet_outcome outcome.now }
{
    match outcome {
        Outcome::Expected { met, .. } => !*met,
        Outcome::Opened(_) | Outcome::Closed | Outcome::Replied(_) | Outcome::Refused(_) => false,
    }
}

/// Performs the commands, puts the text printed for them, with their notes or without, into the buffer, and counts the
/// `expect` commands that are not met. A failed allocation ends the run.
fn run_commands<W: Sink>(
    sink: &mut W,
    notes: Notes,
    buffer: &mut Vec<u8>,
    run: &mut Run,
    files: &[Bytes],
    commands: &[Command],
) -> Result<u64, RunFault>
    requires { W.has_failed sink.old ≡ false }
    ensures put { Puts (text_of_run notes files.now commands.now run.old) result
        (W.contents sink.old) (W.contents sink.new) buffer.old.items buffer.new.items }
    ensures unmet { IfOk result (λ k. k ≡ count_by is_unmet_outcome (outcomes files.now commands.now run.old)) }
    ensures cause { PutCause result (W.has_failed sink.new) }
{
    let mut unmet = 0;
    for command in commands {
        let outcome = run.step(files, command)?;
        put_shown(sink, notes, buffer, &outcome)?;
        if is_unmet(&outcome) {
            unmet += 1;
        }
    }
    Ok(unmet)
}

/// Performs the commands, and writes the text printed for them. What was printed before an allocation failed is still
/// written.
fn print_outcomes<W: Sink>(
    alloc: Global,
    sink: &mut W,
    notes: Notes,
    run: &mut Run,
    files: &[Bytes],
    commands: &[Command],
) -> Result<u64, RunFault>
    requires { W.has_failed sink.old ≡ false }
    ensures written { Prints notes files.now commands.now run.old result (W.contents sink.old) (W.contents sink.new) }
    ensures unmet { IfOk result (λ k. k ≡ count_by is_unmet_outcome (outcomes files.now commands.now run.old)) }
    ensures cause { WriteCause result (W.has_failed sink.new) }
{
    let mut buffer = Vec::with_capacity(alloc, ROOM)?;
    match run_commands(sink, notes, &mut buffer, run, files, commands) {
        Ok(unmet) => {
            write_all(sink, &buffer)?;
            Ok(unmet)
        }
        Err(RunFault::Script(fault)) => {
            let _ = write_all(sink, &buffer);
            Err(RunFault::Script(fault))
        }
        Err(fault) => Err(fault),
    }
}

/// Performs commands in a new session, and writes the text printed for them. What was printed before an allocation
/// failed is still written. `print_outcomes` borrows the run from here, so that the proofs of its error paths do not go
/// through the drop of the run.
fn print_run<W: Sink>(
    alloc: Global,
    sink: &mut W,
    notes: Notes,
    files: &[Bytes],
    commands: &[Command],
) -> Result<u64, RunFault>
    requires { W.has_failed sink.old ≡ false }
    ensures written { Prints notes files.now commands.now new_run result (W.contents sink.old) (W.contents sink.new) }
    ensures unmet { IfOk result (λ k. k ≡ unmet files.now commands.now) }
    ensures cause { WriteCause result (W.has_failed sink.new) }
{
    let mut run = Run::new(Session::new(alloc));
    print_outcomes(alloc, sink, notes, &mut run, files, commands)
}

/// Reads a script, assembles it, runs it with these files in a new session, and writes the text that it prints. Returns
/// how many `expect` commands were not met.
///
/// # Errors
///
/// `Script` with the fault of bytes that are no script, or `OutOfMemory` if an allocation fails, which ends a run.
/// `Read` if a read failed, and `Write` if a write failed or took no byte. Nothing is written before the script is
/// assembled, and the bytes written before an error are a prefix of the printed text.
pub fn run_script<R: Source, W: Sink>(
    alloc: Global,
    reader: &mut R,
    files: Vec<Bytes>,
    writer: &mut W,
) -> Result<u64, RunFault>
    requires reader { R.has_failed reader.old ≡ false }
    requires writer { W.has_failed writer.old ≡ false }
    ensures ran { IfSome (R.remaining reader.old) (λ bytes.
        AnswersRun files.items (reading bytes) result (W.contents writer.old) (W.contents writer.new)) }
    ensures taken { TakesAtMost 16777217 (R.remaining reader.old) (R.remaining reader.new) }
    ensures cause { HasCause result (R.has_failed reader.new) (W.has_failed writer.new) }
    ensures unread { WritesNoneAtRead result (W.contents writer.old) (W.contents writer.new) }
{
    let script = read_script(alloc, reader)?;
    print_run(alloc, writer, Notes::Shown, &files, script.commands())
}

/// Reads a script, runs it as `run_script` does, and writes the text that it prints without the lines of notes. Returns
/// how many `expect` commands were not met.
///
/// # Errors
///
/// Those of `run_script`.
pub fn run_without_notes<R: Source, W: Sink>(
    alloc: Global,
    reader: &mut R,
    files: &[Bytes],
    writer: &mut W,
) -> Result<u64, RunFault>
    requires reader { R.has_failed reader.old ≡ false }
    requires writer { W.has_failed writer.old ≡ false }
    ensures ran { IfSome (R.remaining reader.old) (λ bytes.
        AnswersWithoutNotes files.now (reading bytes) result (W.contents writer.old) (W.contents writer.new)) }
    ensures taken { TakesAtMost 16777217 (R.remaining reader.old) (R.remaining reader.new) }
    ensures cause { HasCause result (R.has_failed reader.new) (W.has_failed writer.new) }
    ensures unread { WritesNoneAtRead result (W.contents writer.old) (W.contents writer.new) }
{
    let script = read_script(alloc, reader)?;
    print_run(alloc, writer, Notes::LeftOut, files, script.commands())
}

/// Performs a job: runs, lists or checks the script that the source has. Returns how many `expect` commands were not
/// met, and 0 for a listing and a check.
///
/// # Errors
///
/// Those of `run_script`.
pub fn run_job<R: Source, W: Sink>(
    alloc: Global,
    job: &Job,
    files: Vec<Bytes>,
    reader: &mut R,
    writer: &mut W,
) -> Result<u64, RunFault>
    requires reader { R.has_failed reader.old ≡ false }
    requires writer { W.has_failed writer.old ≡ false }
    ensures done { IfSome (R.remaining reader.old) (λ bytes.
        AnswersJob job.now files.items (reading bytes) result (W.contents writer.old) (W.contents writer.new)) }
    ensures taken { TakesAtMost 16777217 (R.remaining reader.old) (R.remaining reader.new) }
    ensures cause { HasCause result (R.has_failed reader.new) (W.has_failed writer.new) }
    ensures unread { WritesNoneAtRead result (W.contents writer.old) (W.contents writer.new) }
{
    match job {
        Job::Run { .. } => run_script(alloc, reader, files, writer),
        Job::List { .. } => list_script(alloc, reader, writer),
        Job::Check { .. } => check_script(alloc, reader, writer),
    }
}
