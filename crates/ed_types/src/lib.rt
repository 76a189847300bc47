//! The types at the border of the editing component: messages, replies and their notes, refusals, limits, the commands
//! of scripts, and Scintilla's numbers for them.
#![tactic(auto)]

mod bytes;
pub mod document_option;
pub mod fold_level;
mod kind;
mod laws;
mod limits;
mod marks;
mod message;
pub mod modification;
pub mod notification;
mod refusal;
mod reply;
mod script;

pub use bytes::Bytes;
pub use kind::Kind;
pub use laws::kinds_and_numbers;
pub use limits::Limits;
pub use marks::{Columns, columns_of};
pub use message::Message;
pub use refusal::Refusal;
pub use reply::{Note, Reply};
pub use script::{Cause, Command, Outcome, ScriptFault};
