//! The words after the program's name, read as a job or a task.

ghost use Rattle.std.specs.Prelude.{◌≡◌, map, IfOk, IsErr, true, string_bytes};
ghost use Rattle.job_words.specs.Jobs.{are_plain as are_plain_texts, is_plain as is_plain_text, job_of, step_of, ReadsWords, ReadsTask};

use crate::command_line::{no_job, parsed_job, parsed_task};
use clap::Error;
use clap::error::ErrorKind;
use std::alloc::{AllocError, AllocFailed, Global};
use std::convert::AsStr;
use std::marker::Model;

/// A word. A contract sees its bytes.
#[derive(Drop)]
pub struct Word {
    text: String,
}

impl Model for Word {
    ghost use Rattle.std.specs.Prelude.{List, ℕ};
    ghost use Rattle.std.specs.String.{string_bytes};

    ghost Value = { List ℕ };

    ghost view = { λ word. string_bytes word.text };
}

impl Word {
    /// Wraps `text`. Allocates nothing.
    pub fn new(text: String) -> Self
        ensures { result ≡ string_bytes text }
    {
        Word { text }
    }

    /// Returns the text of the word.
    pub fn as_str(&self) -> &str
        ensures { result.now ≡ self.now }
    {
        self.text.as_str()
    }
}

/// A list of words. A contract sees the list of their bytes.
#[derive(Drop)]
pub struct Words {
    words: Vec<Word>,
}

impl Model for Words {
    ghost use Rattle.std.specs.Prelude.{List, ℕ};

    ghost Value = { List (List ℕ) };

    ghost view = { λ words. words.words.items };
}

impl Words {
    /// Wraps `words`. Allocates nothing.
    pub fn new(words: Vec<Word>) -> Self
        ensures { result ≡ words.items }
    {
        Words { words }
    }

    /// Returns the words as a slice.
    pub fn as_slice(&self) -> &[Word]
        ensures { result.now ≡ self.now }
    {
        self.words.as_slice()
    }
}

/// What the words ask the program to do.
#[derive(Drop)]
pub enum Job {
    /// Runs a script with files.
    Run { script: Word, files: Words },
    /// Prints a script's listing.
    List { script: Word },
    /// Prints the number of a script's commands.
    Check { script: Word },
}

/// What the words ask the program to do: a job, or one of the tasks that are no job.
#[derive(Drop)]
pub enum Task {
    /// A job.
    Whole(Job),
    /// Runs a script with files, without printing notes.
    RunWithoutNotes { script: Word, files: Words },
    /// Steps through a script with files.
    Step { script: Word, files: Words },
    /// Checks a script, and shows the line at fault.
    CheckAndShow { script: Word },
}

/// Why words are no job or task.
#[derive(Debug, Drop)]
pub enum WordFault {
    /// They have none of the program's forms, or ask for help. Has the text for the user.
    Usage(Error),
    /// An allocation failed.
    OutOfMemory,
}

impl From<AllocError> for WordFault {
    fn from(_refused: AllocError) -> WordFault {
        WordFault::OutOfMemory
    }
}

impl<T: Drop> From<AllocFailed<T>> for WordFault {
    fn from(_refused: AllocFailed<T>) -> WordFault {
        WordFault::OutOfMemory
    }
}

impl From<Error> for WordFault {
    fn from(error: Error) -> WordFault {
        match error.kind() {
            ErrorKind::OutOfMemory => WordFault::OutOfMemory,
            _ => WordFault::Usage(error),
        }
    }
}

/// Returns whether a word is not empty and does not begin with `-`.
fn is_plain(word: &str) -> bool
    ensures { result ≡ is_plain_text word.now }
{
    match word.as_bytes() {
        [] => false,
        [first, ..] => *first != b'-',
    }
}

/// Returns whether all words are plain.
fn are_plain(words: &[String]) -> bool
    ensures { result ≡ are_plain_texts (map string_bytes words.now) }
{
    for word in words {
        if !is_plain(word.as_str()) {
            return false;
        }
    }
    true
}

/// Copies a word.
///
/// # Errors
///
/// `AllocError` if the allocation fails.
pub(crate) fn copy_word(alloc: Global, word: &str) -> Result<Word, AllocError>
    ensures { IfOk result (λ copy. copy ≡ word.now) }
{
    Ok(Word::new(String::from_str(alloc, word)?))
}

/// Copies a list of words.
///
/// # Errors
///
/// `AllocError` if an allocation fails.
pub(crate) fn copy_words<S: AsStr>(alloc: Global, words: &[S]) -> Result<Words, AllocError>
    ensures { IfOk result (λ copy. copy ≡ map S.text words.now) }
{
    let mut copies = Vec::new(alloc);
    for word in words {
        copies.push(copy_word(alloc, word.as_str())?)?;
    }
    Ok(Words::new(copies))
}

/// Returns the job of words of one of the three forms, or `None`.
fn direct_job(alloc: Global, words: &[String]) -> Result<Option<Job>, AllocError>
    ensures { IfOk result (λ job. job ≡ job_of (map string_bytes words.now)) }
{
    let [verb, script, files @ ..] = words else {
        return Ok(None);
    };
    if verb.as_str() == "run" {
        let script = copy_word(alloc, script.as_str())?;
        let files = copy_words(alloc, files)?;
        return Ok(Some(Job::Run { script, files }));
    }
    if !files.is_empty() {
        return Ok(None);
    }
    if verb.as_str() == "list" {
        let script = copy_word(alloc, script.as_str())?;
        return Ok(Some(Job::List { script }));
    }
    if verb.as_str() == "check" {
        let script = copy_word(alloc, script.as_str())?;
        return Ok(Some(Job::Check { script }));
    }
    Ok(None)
}

/// Reads the words after the program's name as a job: `run SCRIPT FILE..`, `list SCRIPT` or `check SCRIPT`.
///
/// If each word is plain, which means not empty and without a leading `-`, the result is exactly the job that they ask
/// for. `clap` reads all other words, such as `-` for a script, and writes the texts of usage faults.
///
/// # Errors
///
/// `Usage` with the text for the user if the words are no job, and `OutOfMemory` if an allocation fails.
pub fn read_words(alloc: Global, words: &[String]) -> Result<Job, WordFault>
    ensures { are_plain_texts (map string_bytes words.now) ≡ true → ReadsWords (map string_bytes words.now) result }
{
    if !are_plain(words) {
        return parsed_job(alloc, words);
    }
    match direct_job(alloc, words) {
        Ok(Some(job)) => Ok(job),
        Ok(None) => match parsed_job(alloc, words) {
            Ok(_) => no_job(alloc),
            Err(fault) => Err(fault),
        },
        Err(_) => Err(WordFault::OutOfMemory),
    }
}

/// Returns the task of the words `step SCRIPT FILE..`, or `None`.
fn direct_step(alloc: Global, words: &[String]) -> Result<Option<Task>, AllocError>
    ensures { IfOk result (λ task. task ≡ step_of (map string_bytes words.now)) }
{
    let [verb, script, files @ ..] = words else {
        return Ok(None);
    };
    if verb.as_str() == "step" {
        let script = copy_word(alloc, script.as_str())?;
        let files = copy_words(alloc, files)?;
        return Ok(Some(Task::Step { script, files }));
    }
    Ok(None)
}

/// Reads the words after the program's name as a task: those of a job, `step SCRIPT FILE..`,
/// `run --quiet SCRIPT FILE..`, or `check --show SCRIPT`.
///
/// If each word is plain, the result is exactly the task that they ask for.
///
/// # Errors
///
/// Those of `read_words`.
pub fn read_task(alloc: Global, words: &[String]) -> Result<Task, WordFault>
    ensures { are_plain_texts (map string_bytes words.now) ≡ true → ReadsTask (map string_bytes words.now) result }
{
    if !are_plain(words) {
        return parsed_task(alloc, words);
    }
    match direct_step(alloc, words) {
        Ok(Some(task)) => Ok(task),
        Ok(None) => match read_words(alloc, words) {
            Ok(job) => Ok(Task::Whole(job)),
            Err(fault) => Err(fault),
        },
        Err(_) => Err(WordFault::OutOfMemory),
    }
}
