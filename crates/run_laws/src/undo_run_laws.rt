//! The law of undo between other commands.

ghost use Rattle.run_laws.specs.UndoRunLaws.{UndoGoesBackOverCommands};

/// UNDO messages to views of a document lead back to the text of the latest earlier state of the run with as many
/// transactions fewer, and as many REDO messages lead forward to the text at first. The commands between may go to
/// views of other documents, be queries, or open and close views.
pub fn undo_goes_back_over_commands()
    ensures { UndoGoesBackOverCommands }
{
    ed_model::plans_are_fit();
    ed_model::soundness_is_kept();
    ed_model::session_is_sound();
    ed_model::queries_leave_the_session();
    ed_model::other_documents_are_left_alone();
    ed_model::undo_and_redo_are_never_too_long();
    ed_model::undo_and_redo_messages_lead_there_and_back();
    ed_model::undo_messages_go_back();
    ed_model::undo_goes_back_in_every_run();
}
