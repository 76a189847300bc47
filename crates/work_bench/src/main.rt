//! Jobs for which a user of an editor waits. Each has many messages, to documents as editors have them: styled, with
//! fold levels, markers and indicators, and with notes, which are read. The program prints a digest of all replies and
//! no time, so that its output is the same on every machine. `bench/run` times it.
//!
//!     work_bench edit|change|apart|paint|files|scripts SEED SIZE
//!     work_bench all SEED SIZE                      (each of them)
#![tactic(auto)]

mod apart;
mod change;
mod desk;
mod dice;
mod digest;
mod dressing;
mod edit;
mod files;
mod paint;
mod scripts;
mod source;

use crate::desk::Desk;
use crate::dice::Dice;
use std::alloc::{AllocError, Global};
use std::{env, io};

/// A job of many messages.
#[derive(Clone, Copy)]
enum Job {
    /// Typing and editing as people do it.
    Edit,
    /// Changes of everything, undone and redone.
    Change,
    /// Edits far apart.
    Apart,
    /// Whole files styled, marked, folded and drawn.
    Paint,
    /// Files opened, searched, replaced and saved.
    Files,
    /// Scripts listed, run and stepped through.
    Scripts,
}

/// All jobs, each with its word of the command line.
const JOBS: [(&str, Job); 6] = [
    ("edit", Job::Edit),
    ("change", Job::Change),
    ("apart", Job::Apart),
    ("paint", Job::Paint),
    ("files", Job::Files),
    ("scripts", Job::Scripts),
];

/// Does a job in a session of its own, and returns the digest of the replies.
fn work(alloc: Global, job: Job, dice: &mut Dice, size: usize) -> Result<u64, AllocError> {
    let mut desk = Desk::new(alloc);
    let desk_lent = &mut desk;
    let done = match job {
        Job::Edit => edit::edit(desk_lent, alloc, dice, size),
        Job::Change => change::change(desk_lent, alloc, dice, size),
        Job::Apart => apart::apart(desk_lent, alloc, dice, size),
        Job::Paint => paint::paint(desk_lent, alloc, dice, size),
        Job::Files => files::files(desk_lent, alloc, dice, size),
        Job::Scripts => scripts::scripts(desk_lent, alloc, dice, size),
    };
    done.map(|_| desk.digest())
}

/// Does the jobs that a word names, and prints their digests.
fn run(rt: &HostRuntime, wanted: &str, seed: usize, size: usize) -> io::Result<()> {
    for (word, job) in JOBS {
        if word == wanted || wanted == "all" {
            let mut dice = Dice::new(seed as u64);
            let digest = work(rt.alloc(), job, &mut dice, size)?;
            println!(rt; "{word} {digest:016x}")?;
        }
    }
    Ok(())
}

/// Returns the word of the command line at `index`, or an empty one.
fn word_at(words: &[String], index: usize) -> &str {
    match words.get(index) {
        Some(word) => word.as_str(),
        None => "",
    }
}

/// Returns the number in the word at `index`, or 0.
fn number_at(words: &[String], index: usize) -> usize {
    word_at(words, index).parse::<usize>().unwrap_or(0)
}

fn main(rt: HostRuntime) -> io::Result<()> {
    let mut words = Vec::new(rt.alloc());
    for word in env::args(&rt)? {
        words.push(word)?;
    }
    run(
        &rt,
        word_at(&words, 1),
        number_at(&words, 2),
        number_at(&words, 3),
    )
}
