//! The behaviour of the component as definitions over plain lists (`specs/`; `docs/BEHAVIOUR.md` says the same in words), laws of
//! the definitions, and worked examples. Each law and each example is the contract of a public function with an empty body.
#![tactic(auto)]

mod carry_laws;
mod examples;
mod handle_laws;
mod history_laws;
mod inverse_laws;
mod line_laws;
mod plan;
mod run_undo_laws;
mod script_examples;
mod script_laws;
mod sound_laws;
mod table_laws;
mod undo_laws;
mod undo_message_laws;
mod worked_examples;

pub use carry_laws::{rows_that_meet, single_rows};
pub use examples::{
    examples_of_documents, examples_of_folding, examples_of_markers, examples_of_recording,
    examples_of_selection, examples_of_styles, examples_of_text, examples_of_undo,
};
pub use handle_laws::no_handle_is_given_anew;
pub use history_laws::{a_change_is_appended, seals_and_groups};
pub use inverse_laws::undo_and_redo_give_back_the_text;
pub use line_laws::{positions_after_a_step, rows_match_lines};
pub use plan::{
    DocumentChange, Edit, Follow, LineEnd, LineEndTypes, Plan, Planned, SessionChange, Source,
    ViewChange,
};
pub use run_undo_laws::undo_goes_back_in_every_run;
pub use script_examples::{
    printed_outcomes, script_lines_at_fault, script_spelling, script_texts_at_fault,
};
pub use script_laws::laws_of_scripts;
pub use sound_laws::{
    plans_are_fit, session_is_sound, soundness_is_kept, steps_keep_views_standing,
};
pub use table_laws::{
    marked_plans_are_free, queries_leave_the_session, refusals_leave_the_session,
};
pub use undo_laws::earlier_texts_are_kept;
pub use undo_message_laws::{
    other_documents_are_left_alone, undo_and_redo_are_never_too_long,
    undo_and_redo_messages_lead_there_and_back, undo_messages_go_back,
};
pub use worked_examples::{
    worked_characters, worked_joins, worked_limits, worked_lines, worked_matches, worked_recording,
};
