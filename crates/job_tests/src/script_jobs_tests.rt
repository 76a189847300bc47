//! Tests of what no clause states: that memory suffices, values from outside, and each call that fails.

ghost use Rattle.std.specs.Prelude.{◌≡◌, false};

use crate::memory::{MemorySink, MemorySource};
use job_words::{Job, Task, WordFault, Words, read_task, read_words};
use script_ends::{RunFault, read_file, status_of};
use script_jobs::{run_job, run_script};
use std::alloc::Global;
use std::process::Abort;
use std::test::Fail;

/// The script `examples/messages/all_notes_of_an_insertion.sci`, the text that it prints, its listing, and the text of its check.
/// `tools/ci/run_examples.py` runs all examples.
const SCRIPT: &[u8] =
    b"sci 1\nopen\nsend 1 2003 0 0 \"ab\\x0a\"\nsend 1 2182 0 0 \"\"\nsend 1 2003 9 0 \"z\"\nsend 1 2007 -1 0 \"\"\n";

const PRINTED: &[u8] = b"= 1 \"\"\n= 0 \"\"\n@ 1 2008 1040 0 3 0 0 0 0 0 0 0 0 \"ab\\x0a\"\n\
    @ 1 2003 0 0 0 0 0 0 0 0 0 0 0 \"\"\n@ 1 2008 8209 0 3 1 0 0 0 0 0 0 0 \"ab\\x0a\"\n\
    = 3 \"ab\\x0a\"\n! 6\n= 0 \"\"\n";

const LISTED: &[u8] =
    b"sci 2\nopen\nsend 1 2003 0 0 \"ab\\x0a\"\nsend 1 2182 0 0 \"\"\nsend 1 2003 9 0 \"z\"\nsend 1 2007 -1 0 \"\"\n";

const CHECKED: &[u8] = b"ok 5\n";

/// How many reads of 7 bytes it takes to read SCRIPT and to see its end.
const READS: usize = 15;

/// Returns the result of a run of SCRIPT from memory to memory, a few bytes at a time.
fn run(alloc: Global, good_reads: usize, sink: &mut MemorySink) -> Result<u64, RunFault>
    requires { sink.old.failed ≡ false }
{
    let mut source = MemorySource::new(SCRIPT, 7, good_reads);
    run_script(alloc, &mut source, Vec::new(alloc), sink)
}

/// Runs SCRIPT with reads that fail after `good` of them.
fn stops_at_read(rt: &impl Abort, alloc: Global, good: usize) {
    let mut sink = MemorySink::new(alloc, 5, 1000, false);
    let answer = run(alloc, good, &mut sink);
    if good < READS {
        assert!(rt; answer == Err(RunFault::Read));
        assert!(rt; sink.bytes().is_empty());
        assert_eq!(rt; status_of(&answer), 3);
    } else {
        assert!(rt; answer == Ok(0));
        assert!(rt; sink.bytes() == PRINTED);
        assert_eq!(rt; status_of(&answer), 0);
    }
}

#[test]
fn stops_at_each_failed_read(rt: HostRuntime) {
    for good in 0..=READS {
        stops_at_read(&rt, rt.alloc(), good);
    }
}

/// Runs SCRIPT with writes of 10 bytes that fail after `good` of them, or take no byte if the sink stalls. A prefix of
/// the text is written.
fn stops_at_write(rt: &impl Abort, alloc: Global, good: usize, stalls: bool) {
    let mut sink = MemorySink::new(alloc, 10, good, stalls);
    let answer = run(alloc, 1000, &mut sink);
    if good < PRINTED.len().div_ceil(10) {
        assert!(rt; answer == Err(RunFault::Write));
        assert_eq!(rt; sink.bytes().len(), good.saturating_mul(10));
        assert!(rt; PRINTED.starts_with(sink.bytes()));
        assert_eq!(rt; status_of(&answer), 3);
    } else {
        assert!(rt; answer == Ok(0));
        assert!(rt; sink.bytes() == PRINTED);
    }
}

#[test]
fn stops_at_each_failed_write(rt: HostRuntime) {
    for good in 0..=PRINTED.len().div_ceil(10) {
        stops_at_write(&rt, rt.alloc(), good, false);
        stops_at_write(&rt, rt.alloc(), good, true);
    }
}

/// Each job, with the text that it writes for SCRIPT.
const JOBS: [(&str, &[u8]); 3] = [("run", PRINTED), ("list", LISTED), ("check", CHECKED)];

/// Performs a job on SCRIPT, and asserts the text that it writes.
fn writes(rt: &impl Abort, alloc: Global, verb: &str, text: &[u8]) -> Result<(), Fail> {
    let job = job(alloc, &[verb, "script"])?;
    let mut source = MemorySource::new(SCRIPT, 7, 1000);
    let mut sink = MemorySink::new(alloc, 5, 1000, false);
    let answer = run_job(alloc, &job, Vec::new(alloc), &mut source, &mut sink);
    assert!(rt; answer == Ok(0));
    assert!(rt; sink.bytes() == text);
    Ok(())
}

#[test]
fn jobs_write_their_texts(rt: HostRuntime) -> Result<(), Fail> {
    for (verb, text) in &JOBS {
        writes(&rt, rt.alloc(), verb, text)?;
    }
    Ok(())
}

#[test]
fn a_file_is_read(rt: HostRuntime) -> Result<(), Fail> {
    let mut source = MemorySource::new(SCRIPT, 7, 1000);
    let file = read_file(rt.alloc(), &mut source)?;
    assert!(rt; file.as_slice() == SCRIPT);
    Ok(())
}

/// Returns copies of words.
fn copies(alloc: Global, words: &[&str]) -> Result<Vec<String>, WordFault> {
    let mut copies = Vec::new(alloc);
    for word in words {
        copies.push(String::from_str(alloc, word)?)?;
    }
    Ok(copies)
}

/// Reads words as a job.
fn job(alloc: Global, words: &[&str]) -> Result<Job, WordFault> {
    read_words(alloc, &copies(alloc, words)?)
}

/// Reads words as a task.
fn task(alloc: Global, words: &[&str]) -> Result<Task, WordFault> {
    read_task(alloc, &copies(alloc, words)?)
}

/// Returns whether words are these texts.
fn are_texts(words: &Words, texts: &[&str]) -> bool {
    let words = words.as_slice();
    for (at, text) in texts.iter().enumerate() {
        match words.get(at) {
            Some(word) if word.as_str() == *text => {}
            _ => return false,
        }
    }
    words.len() == texts.len()
}

/// Returns whether words are a job that runs this script with these files.
fn is_run(alloc: Global, words: &[&str], wanted: &str, names: &[&str]) -> bool {
    matches!(&job(alloc, words), Ok(Job::Run { script, files }) if script.as_str() == wanted && are_texts(files, names))
}

/// Returns whether words are a job that lists this script.
fn is_list(alloc: Global, words: &[&str], wanted: &str) -> bool {
    matches!(&job(alloc, words), Ok(Job::List { script }) if script.as_str() == wanted)
}

/// Returns whether words are a job that checks this script.
fn is_check(alloc: Global, words: &[&str], wanted: &str) -> bool {
    matches!(&job(alloc, words), Ok(Job::Check { script }) if script.as_str() == wanted)
}

/// Returns whether words are no job.
fn is_no_job(alloc: Global, words: &[&str]) -> bool {
    matches!(&job(alloc, words), Err(WordFault::Usage(_)))
}

#[test]
fn reads_words(rt: HostRuntime) {
    assert!(rt; is_run(rt.alloc(), &["run", "-", "f"], "-", &["f"]));
    assert!(rt; is_run(rt.alloc(), &["run", "s", "f", "g"], "s", &["f", "g"]));
    assert!(rt; is_list(rt.alloc(), &["list", "s"], "s"));
    assert!(rt; is_check(rt.alloc(), &["check", "-"], "-"));
    assert!(rt; is_no_job(rt.alloc(), &[]));
    assert!(rt; is_no_job(rt.alloc(), &["run"]));
    assert!(rt; is_no_job(rt.alloc(), &["list", "a", "b"]));
    assert!(rt; is_no_job(rt.alloc(), &["go", "a"]));
    assert!(rt; is_no_job(rt.alloc(), &["--help"]));
    assert!(rt; is_no_job(rt.alloc(), &["run", "--wrong"]));
}

/// Returns whether words ask to step through this script with these files.
fn is_step(alloc: Global, words: &[&str], wanted: &str, names: &[&str]) -> bool {
    matches!(
        &task(alloc, words),
        Ok(Task::Step { script, files }) if script.as_str() == wanted && are_texts(files, names)
    )
}

/// Returns whether words ask for a run of this script with these files, without notes.
fn is_quiet_run(alloc: Global, words: &[&str], wanted: &str, names: &[&str]) -> bool {
    matches!(
        &task(alloc, words),
        Ok(Task::RunWithoutNotes { script, files })
            if script.as_str() == wanted && are_texts(files, names)
    )
}

/// Returns whether words ask for a check of this script that shows the line at fault.
fn is_showing_check(alloc: Global, words: &[&str], wanted: &str) -> bool {
    matches!(&task(alloc, words), Ok(Task::CheckAndShow { script }) if script.as_str() == wanted)
}

/// Returns whether words ask, as a task, for a run of this script.
fn is_run_task(alloc: Global, words: &[&str], wanted: &str) -> bool {
    matches!(&task(alloc, words), Ok(Task::Whole(Job::Run { script, .. })) if script.as_str() == wanted)
}

/// Returns whether words are no task.
fn is_no_task(alloc: Global, words: &[&str]) -> bool {
    matches!(&task(alloc, words), Err(WordFault::Usage(_)))
}

#[test]
fn reads_tasks(rt: HostRuntime) {
    assert!(rt; is_step(rt.alloc(), &["step", "s", "f"], "s", &["f"]));
    assert!(rt; is_quiet_run(rt.alloc(), &["run", "--quiet", "s", "f"], "s", &["f"]));
    assert!(rt; is_showing_check(rt.alloc(), &["check", "--show", "s"], "s"));
    assert!(rt; is_showing_check(rt.alloc(), &["check", "-", "--show"], "-"));
    assert!(rt; is_run_task(rt.alloc(), &["run", "-"], "-"));
    // These words are tasks, but no jobs.
    assert!(rt; is_no_job(rt.alloc(), &["step", "s"]));
    assert!(rt; is_no_job(rt.alloc(), &["run", "--quiet", "s"]));
    assert!(rt; is_no_job(rt.alloc(), &["check", "--show", "s"]));
    assert!(rt; is_no_task(rt.alloc(), &["step"]));
    assert!(rt; is_no_task(rt.alloc(), &["run", "--show", "s"]));
    assert!(rt; is_no_task(rt.alloc(), &["check", "--show", "s", "f"]));
}
