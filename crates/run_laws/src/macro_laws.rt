//! Laws of macros.

ghost use Rattle.run_laws.specs.MacroLaws.{RecordingsCanBeReplayed, RepliesRecordOneMessage, RunsRecordOneMessageAReply};

/// The messages that a view recorded between STARTRECORD and STOPRECORD, sent to it from the session before
/// STARTRECORD, lead to the session after STOPRECORD, except for whether the view records.
pub fn recordings_can_be_replayed()
    ensures { RecordingsCanBeReplayed }
{
    ed_model::queries_leave_the_session();
    ed_model::soundness_is_kept();
    ed_model::session_is_sound();
}

/// A reply records at most one message for each view: its first SCN_MACRORECORD for the view is the only one.
pub fn replies_record_one_message()
    ensures messages { RepliesRecordOneMessage }
    ensures runs { RunsRecordOneMessageAReply }
{}
