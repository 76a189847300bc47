//! The notes of a reply, collected while a message is performed.
//!
//! ```text
//! notes   [view 1, 0..3] [view 2, 0..3] [view 1, none] [view 1, 0..3] [view 1, 3..5]
//! pool     a b c d e                                                   shared: d e
//! ```
//!
//! A text that several notes have stands in the pool once: it is shared there, and each of these notes refers to it.
//! Room for all notes and texts of a message is reserved before the message is performed, so that notifying cannot
//! fail.
//!
//! Contracts see each note with its own text.
#![tactic(auto)]

mod list;

pub use list::{NoteList, blank};
