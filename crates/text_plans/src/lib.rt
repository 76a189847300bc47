//! Plans of the messages on text, selection, clipboard, keys and target.
//!
//! There is one function for each message, in modules named like the sections of `docs/MESSAGES.md`. None of them
//! allocates.
#![tactic(auto)]

pub mod key_plans;
pub mod selection_plans;
pub mod target_plans;
pub mod texts;
