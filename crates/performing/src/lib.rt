//! Performing: what a plan does to documents, views and the session, with the notes of that.
//!
//! - An edit, undo and redo (`replace_with_room`, `convert_with_room`, `go_with_room`) make several steps. Each counts what all its steps and
//!   their notes need, reserves that room, and then makes the steps, which cannot fail.
//! - All else is one change (`change_document`, `change_view`, `change_session`), and one call that may fail. `change_unheard` makes a change of a
//!   document that no view hears, and needs no list of notifications.
//!
//! If an allocation fails, nothing has changed but how much fits in. The function that makes a change of a document knows neither views nor
//! notes: it returns what there is to tell of the change (`ChangeNote`), and `tell` notifies the views of that.
#![tactic(auto)]

mod change;
mod converting;
mod edit_need;
mod history;
mod history_changes;
mod laws;
mod marker_changes;
mod moving;
mod note;
mod note_need;
mod replacing;
mod row_changes;
mod sessions;
mod style_changes;
mod telling;
mod type_changes;
mod views;

pub use change::{change_document, change_unheard};
pub use converting::convert_with_room;
pub use history::go_with_room;
pub use replacing::replace_with_room;
pub use sessions::change_session;
pub use views::change_view;
