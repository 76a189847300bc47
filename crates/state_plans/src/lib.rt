//! Plans of the messages on state beside the text: undo, lines and markers, styles, folding, documents and masks.
//!
//! There is one function for each message, in modules named like the sections of `docs/MESSAGES.md`. None of them
//! allocates.
#![tactic(auto)]

pub mod folding_plans;
pub mod line_plans;
pub mod session_plans;
pub mod style_plans;
pub mod undo_plans;
