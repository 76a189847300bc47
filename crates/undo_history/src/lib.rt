//! The undo history of a document: its steps, the transactions that are undone and redone as one, and the save point.
#![tactic(auto)]

mod history;
mod joining;
mod records;
mod runs;

pub use history::UndoHistory;
pub use records::{ChangeKind, LentChange, StepKind};
