//! Scripts: lists of commands, assembled from their text and listed as text.
#![tactic(auto)]

mod appending;
mod assembling;
mod commands;
mod fields;
mod lengths;
mod lines;
mod listing;
mod numbers;
pub mod printing;
mod recorder;
mod script;
mod spelled;
mod stop;
mod texts;

pub use assembling::assemble;
pub use ed_types::{Cause, Command, ScriptFault};
pub use listing::list;
pub use recorder::{Recorder, all_is_recorded};
pub use script::{SCRIPT_LIMIT, Script};
