//! The program's command line, as `clap` reads it, and its help texts.

ghost use Rattle.std.specs.Prelude.{IsErr};

use crate::words::{Job, Task, Word, WordFault, Words, copy_word, copy_words};
use clap::error::ErrorKind;
use clap::{Arg, ArgAction, ArgMatches, Command};
use std::alloc::{AllocError, Global};

/// What `--help` of a subcommand prints below its arguments.
const RUN_HELP: &str =
    "Example:\n  sci_console run fill.sci text.txt\nruns fill.sci, in which `load 1 1` sets the text of view 1 to that of text.txt. It prints a line for each\ncommand: `= VALUE \"TEXT\"` for a reply, `! NUMBER` for a refusal, and `+` or `-` for an `expect` that was met or\nnot. A line `@ ..` for each note follows the line of its command. The exit status is 4 if an `expect` was not met.";

const LIST_HELP: &str =
    "Example:\n  sci_console list fill.sci > same.sci\nwrites the commands of fill.sci as a script of version 2, which does the same.";

const CHECK_HELP: &str =
    "Example:\n  sci_console check fill.sci\nprints `ok 3` for a script of three commands, and runs none of them. If the script has a fault, standard error\nhas `line K: CAUSE` and, with --show, the line at fault below it.";

const STEP_HELP: &str =
    "Example:\n  sci_console step fill.sci text.txt\nreads one order a line from standard input, and ends with the input:\n  n    performs the next command, and describes its outcome in words\n  b    goes back by one command\n  g N  goes to where the first N commands are done\n  t    shows the text of each view with its lines, its caret (^) and its selection (~)\n  l    shows the fold level, the markers and the flags of each line\n  h    shows what can be undone and redone\n  q    ends";

/// Returns the script argument of each subcommand.
fn script_argument<'a>(alloc: Global) -> Arg<'a> {
    Arg::new(alloc, "SCRIPT")
        .required(true)
        .help("The script's path; `-` is standard input")
}

/// Returns the file arguments of a run.
fn file_arguments<'a>(alloc: Global) -> Arg<'a> {
    Arg::new(alloc, "FILE")
        .action(ArgAction::Append)
        .num_args(0..)
        .help("Files that the script loads")
}

/// Returns the flag of a run without notes.
fn quiet_flag<'a>(alloc: Global) -> Arg<'a> {
    Arg::new(alloc, "quiet")
        .long("quiet")
        .action(ArgAction::SetTrue)
        .help("Prints no notes: no line that begins with @")
}

/// Returns the flag of a check that shows the line at fault.
fn show_flag<'a>(alloc: Global) -> Arg<'a> {
    Arg::new(alloc, "show")
        .long("show")
        .action(ArgAction::SetTrue)
        .help("Also shows the line at fault")
}

/// Returns a subcommand with a script argument.
fn with_script<'a>(
    alloc: Global,
    name: &'a str,
    about: &'a str,
    example: &'a str,
) -> Result<Command<'a>, AllocError> {
    Command::new(alloc, name)
        .about(about)
        .after_help(example)
        .arg(script_argument(alloc))
}

/// Returns the subcommand `run`.
fn run_command<'a>(alloc: Global) -> Result<Command<'a>, AllocError> {
    with_script(alloc, "run", "Runs a script", RUN_HELP)?
        .arg(file_arguments(alloc))?
        .arg(quiet_flag(alloc))
}

/// Returns the subcommand `list`.
fn list_command<'a>(alloc: Global) -> Result<Command<'a>, AllocError> {
    with_script(alloc, "list", "Prints a script's listing", LIST_HELP)
}

/// Returns the subcommand `check`.
fn check_command<'a>(alloc: Global) -> Result<Command<'a>, AllocError> {
    let about = "Prints the number of a script's commands";
    with_script(alloc, "check", about, CHECK_HELP)?.arg(show_flag(alloc))
}

/// Returns the subcommand `step`.
fn step_command<'a>(alloc: Global) -> Result<Command<'a>, AllocError> {
    let about = "Steps through a script, and shows what each command does";
    with_script(alloc, "step", about, STEP_HELP)?.arg(file_arguments(alloc))
}

/// Returns the program's command line.
fn command<'a>(alloc: Global) -> Result<Command<'a>, AllocError> {
    Command::new(alloc, "sci_console")
        .about("Runs, lists, checks and steps through editing scripts")
        .no_binary_name(true)
        .disable_help_subcommand(true)
        .subcommand_required(true)
        .subcommand(run_command(alloc)?)?
        .subcommand(list_command(alloc)?)?
        .subcommand(check_command(alloc)?)?
        .subcommand(step_command(alloc)?)
}

/// Returns the task of a subcommand that takes files.
fn task_with_files(name: &str, is_quiet: bool, script: Word, files: Words) -> Task {
    if name == "step" {
        return Task::Step { script, files };
    }
    if is_quiet {
        return Task::RunWithoutNotes { script, files };
    }
    Task::Whole(Job::Run { script, files })
}

/// Returns the task of a check.
fn check_task(shows: bool, script: Word) -> Task {
    if shows {
        return Task::CheckAndShow { script };
    }
    Task::Whole(Job::Check { script })
}

/// Returns the task of a subcommand, or `None` if it is not one of the program's.
fn task_of_matches(alloc: Global, matches: &ArgMatches<'_>) -> Result<Option<Task>, AllocError> {
    let Some((name, arguments)) = matches.subcommand() else {
        return Ok(None);
    };
    let Some(script) = arguments.get_str("SCRIPT") else {
        return Ok(None);
    };
    let script = copy_word(alloc, script)?;
    if name == "list" {
        return Ok(Some(Task::Whole(Job::List { script })));
    }
    if name == "check" {
        return Ok(Some(check_task(arguments.get_flag("show"), script)));
    }
    let files = match arguments.get_strs("FILE") {
        Some(files) => copy_words(alloc, files)?,
        None => Words::new(Vec::new(alloc)),
    };
    let is_quiet = arguments.get_flag("quiet");
    Ok(Some(task_with_files(name, is_quiet, script, files)))
}

/// Returns the fault of words that are no job, if `clap` finds none itself.
///
/// # Errors
///
/// Always: `Usage` with the text for the user, or `OutOfMemory` if an allocation fails.
pub(crate) fn no_job(alloc: Global) -> Result<Job, WordFault>
    ensures { IsErr result }
{
    let error = command(alloc)?.error(ErrorKind::InvalidSubcommand, "no job")?;
    Err(WordFault::Usage(error))
}

/// Reads the words by `clap`, and returns their task.
///
/// # Errors
///
/// `Usage` with the text for the user if the words are no task, and `OutOfMemory` if an allocation fails.
pub(crate) fn parsed_task(alloc: Global, words: &[String]) -> Result<Task, WordFault> {
    let matches = command(alloc)?.try_get_matches_from(words)?;
    match task_of_matches(alloc, &matches)? {
        Some(task) => Ok(task),
        None => match no_job(alloc) {
            Ok(job) => Ok(Task::Whole(job)),
            Err(fault) => Err(fault),
        },
    }
}

/// Reads the words by `clap`, and returns their job.
///
/// # Errors
///
/// `Usage` with the text for the user if the words are no job, and `OutOfMemory` if an allocation fails.
pub(crate) fn parsed_job(alloc: Global, words: &[String]) -> Result<Job, WordFault> {
    match parsed_task(alloc, words)? {
        Task::Whole(job) => Ok(job),
        Task::RunWithoutNotes { .. } | Task::Step { .. } | Task::CheckAndShow { .. } => no_job(
            alloc,
        ),
    }
}
