//! The words after the program's name, read as jobs and tasks. This crate reads no script, and makes no session.
#![tactic(auto)]

mod command_line;
mod words;

pub use words::{Job, Task, Word, WordFault, Words, read_task, read_words};
