//! Sessions: documents, the views on them, and one door for all messages.
//!
//! A message takes one of three ways. A numeric query is answered by a number, and a text query by bytes of the document, which are read
//! into the reply's own buffer: neither needs a plan. All other messages are planned and performed. The view and its document are looked up,
//! and the number is decoded; the plan decides all refusals but want of memory. An answer, a change of the view and a change of the document
//! that no view hears are performed at once. All else is performed with its notes: an edit, undo and redo make room first for all their
//! steps and notes; a change is one call, which may allocate within it, and has changed nothing if it fails. If the view records the
//! message, the note of that comes first.
#![tactic(auto)]

mod asking;
mod attached;
mod changing;
mod editing;
mod edits;
mod find;
mod handing_out;
mod history;
mod laws;
mod left;
mod lending;
mod opening;
mod perform;
mod reading;
mod recording;
mod run;
mod sending;
mod session;
mod setting;

pub use laws::marked_messages_are_free;
pub use run::Run;
pub use session::Session;
