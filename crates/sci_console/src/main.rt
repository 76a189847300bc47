//! The program `sci_console`: runs editing scripts, lists them, checks them, and steps through them.
//!
//!     sci_console run [--quiet] SCRIPT [FILE...]
//!     sci_console list SCRIPT
//!     sci_console check [--show] SCRIPT
//!     sci_console step SCRIPT [FILE...]
//!
//! SCRIPT and each FILE are paths; `-` for SCRIPT is standard input.
#![tactic(auto)]

ghost use Rattle.std.specs.Prelude.{◌≡◌, IfOk, false, length};
ghost use Rattle.script_ends.specs.Status.{status};

use ed_types::{Bytes, ScriptFault};
use job_words::{Job, Task, Word, WordFault, Words, read_task};
use script_ends::shown::show_line;
use script_ends::{
    ReaderSource, RunFault, TextSource, WriterSink, check_script, read_file, read_script,
    read_text, status_of,
};
use script_jobs::{run_job, run_without_notes};
use script_walk::step_commands;
use std::fs::File;
use std::process::ExitCode;
use std::{env, io};

/// The exit status for words that are no task, and for a request for help.
const USAGE: u8 = 2;

/// Returns the words after the program's name.
fn words_of(rt: &HostRuntime) -> io::Result<Vec<String>> {
    let mut words = Vec::new(rt.alloc());
    for word in env::args(rt)?.skip(1) {
        words.push(word)?;
    }
    Ok(words)
}

/// Opens a file for reading. A file that cannot be opened is a read fault.
fn open(rt: &HostRuntime, path: &Word) -> Result<ReaderSource<File>, RunFault>
    ensures { IfOk result (λ source. source.failed ≡ false) }
{
    match File::open(rt, path.as_str()) {
        Ok(file) => Ok(ReaderSource::new(file)),
        Err(_) => Err(RunFault::Read),
    }
}

/// Reads the whole of each file, in order.
fn read_files(rt: &HostRuntime, paths: &Words) -> Result<Vec<Bytes>, RunFault>
    ensures { IfOk result (λ files. length files.items ≡ length paths.now) }
{
    let mut files = Vec::new(rt.alloc());
    for path in paths.as_slice() {
        let mut source = open(rt, path)?;
        let Ok(()) = files.push(read_file(rt.alloc(), &mut source)?) else {
            return Err(RunFault::Script(ScriptFault::OutOfMemory));
        };
    }
    Ok(files)
}

/// Reads the bytes of the script at a path, or of standard input for `-`.
fn read_script_at(rt: &HostRuntime, script: &Word) -> Result<Vec<u8>, RunFault> {
    if script.as_str() == "-" {
        let mut source = ReaderSource::new(rt.stdin());
        return read_text(rt.alloc(), &mut source);
    }
    let mut source = open(rt, script)?;
    read_text(rt.alloc(), &mut source)
}

/// Steps through the script of these bytes by the lines of standard input, and writes the views to standard output.
fn step(rt: &HostRuntime, files: &[Bytes], text: &[u8]) -> Result<u64, RunFault> {
    let script = read_script(rt.alloc(), &mut TextSource::new(text))?;
    let mut orders = ReaderSource::new(rt.stdin());
    let mut sink = WriterSink::new(rt.stdout());
    step_commands(rt.alloc(), script.commands(), files, &mut orders, &mut sink)
}

/// Performs a task on the script of these bytes, and prints to standard output.
fn run_on_text(
    rt: &HostRuntime,
    task: &Task,
    files: Vec<Bytes>,
    text: &[u8],
) -> Result<u64, RunFault> {
    let mut source = TextSource::new(text);
    let mut sink = WriterSink::new(rt.stdout());
    match task {
        Task::Whole(job) => run_job(rt.alloc(), job, files, &mut source, &mut sink),
        Task::RunWithoutNotes { .. } => run_without_notes(
            rt.alloc(),
            &mut source,
            &files,
            &mut sink,
        ),
        Task::Step { .. } => step(rt, &files, text),
        Task::CheckAndShow { .. } => check_script(rt.alloc(), &mut source, &mut sink),
    }
}

/// Sets `shown` to the faulty line of these bytes, if the task asks for that and a line is at fault.
fn show_fault(task: &Task, answer: &Result<u64, RunFault>, text: &[u8], shown: &mut String) {
    if let (Task::CheckAndShow { .. }, Err(RunFault::Script(ScriptFault::BadLine { line, .. }))) = (
        task, answer,
    ) {
        // If an allocation fails, less of the line is shown.
        let _ = show_line(shown, text, *line);
    }
}

/// Performs a task: reads its files, and then its script, whose file is closed before the script is performed. Sets
/// `shown` as `show_fault` does.
fn run_task(rt: &HostRuntime, task: &Task, shown: &mut String) -> Result<u64, RunFault> {
    let (script, files) = match task {
        Task::Whole(Job::Run { script, files })
        | Task::RunWithoutNotes { script, files }
        | Task::Step { script, files } => (script, read_files(rt, files)?),
        Task::Whole(Job::List { script } | Job::Check { script }) | Task::CheckAndShow { script } =>
            (script, Vec::new(rt.alloc())),
    };
    let text = read_script_at(rt, script)?;
    let answer = run_on_text(rt, task, files, &text);
    show_fault(task, &answer, &text, shown);
    answer
}

/// Prints the line of a fault on standard error, if there is a fault, and `shown` below it, if that is not empty.
/// Returns the exit status.
fn finish(rt: &HostRuntime, answer: &Result<u64, RunFault>, shown: &str) -> u8
    ensures { result ≡ status answer.now }
{
    if let Err(fault) = answer {
        let _ = eprintln!(rt; "{fault}");
    }
    if !shown.is_empty() {
        let _ = eprintln!(rt; "    {shown}");
    }
    status_of(answer)
}

/// Prints a usage text on standard error, and returns the exit status.
fn tell_usage(rt: &HostRuntime, error: &clap::Error) -> u8
    ensures { result ≡ 2 }
{
    let _ = eprint!(rt; "{error}");
    USAGE
}

/// Prints on standard error that a word is not UTF-8.
fn tell_no_text(rt: &HostRuntime) -> ExitCode {
    let _ = eprintln!(rt; "error: a word is not UTF-8 text");
    ExitCode::from(USAGE)
}

/// Performs a task, and returns the exit status.
fn run_and_finish(rt: &HostRuntime, task: &Task) -> u8 {
    let mut shown = String::new(rt.alloc());
    let answer = run_task(rt, task, &mut shown);
    finish(rt, &answer, shown.as_str())
}

fn main(rt: HostRuntime) -> ExitCode {
    let task = match words_of(&rt) {
        Ok(words) => read_task(rt.alloc(), &words),
        Err(error) if error.kind() == io::ErrorKind::OutOfMemory => Err(WordFault::OutOfMemory),
        Err(_) => return tell_no_text(&rt),
    };
    let status = match task {
        Ok(task) => run_and_finish(&rt, &task),
        Err(WordFault::Usage(error)) => tell_usage(&rt, &error),
        Err(WordFault::OutOfMemory) => {
            finish(&rt, &Err(RunFault::Script(ScriptFault::OutOfMemory)), "")
        }
    };
    ExitCode::from(status)
}
