//! The laws of whole runs: facts about lists of commands, from every session that a run reaches; and laws of single
//! definitions, on line ends, fold parents and display lines. Each law is the contract of a public function, whose body
//! only calls the laws of `ed_model` that it needs.
#![tactic(auto)]

mod edit_laws;
mod fold_laws;
mod id_laws;
mod isolation_laws;
mod line_end_laws;
mod macro_laws;
mod save_point_laws;
mod small_laws;
mod undo_run_laws;

pub use edit_laws::{marked_messages_edit, only_edits_change_texts};
pub use fold_laws::{display_lines_count_visible_lines, fold_parents_are_a_chain};
pub use id_laws::{handles_never_come_back, ids_never_come_back, opened_views_have_rising_ids};
pub use isolation_laws::documents_are_apart;
pub use line_end_laws::{conversions_leave_one_kind, convert_eols_converts_the_text};
pub use macro_laws::{recordings_can_be_replayed, replies_record_one_message};
pub use save_point_laws::{
    an_unmodified_document_has_its_last_saved_text, an_unmodified_document_has_its_saved_text,
};
pub use small_laws::{
    documents_without_styles_have_none, documents_without_views_are_held,
    the_table_never_wants_memory,
};
pub use undo_run_laws::undo_goes_back_over_commands;
