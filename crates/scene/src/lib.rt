//! A scene: a document, the views that watch it, and their notes, under the steps that messages make.
//!
//! Each view whose mask asks for it is notified before and after a step, in the order in which the views were attached,
//! and each view follows the step. The notes of a step share its text, and nothing is stored if no view hears the step.
//! All room is reserved before, so that a step cannot fail.
#![tactic(auto)]

mod conversion;
mod laws;
mod moving;
mod need;
mod performing;
mod regrouping;
mod step_notes;
mod steps;
mod telling;
mod undoing;

pub use conversion::{conversion_need, convert};
pub use laws::{document_is_small, needs_are_enough};
pub use need::{NoteRoom, SceneNeed, leaving_need, note_need};
pub use regrouping::regroup;
pub use steps::{StepBits, leaves_save_point, make_step};
pub use telling::{Audience, NoteText, attempt, count_hearers, count_watchers, is_heard, tell};
pub use undoing::{history_need, perform_history};
