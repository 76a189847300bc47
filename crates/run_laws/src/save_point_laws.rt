//! Laws of the save point.

ghost use Rattle.run_laws.specs.LastSavePointLaws.{SavedIsUnmodified, ToldUnmodifiedIsTheLastSavedText, UnmodifiedIsTheLastSavedText, UnmodifiedIsTold};
ghost use Rattle.run_laws.specs.SavePointLaws.{GetModifyTells, UnmodifiedIsTheSavedText};

/// Whenever a document counts as unmodified, with groups open or not, its text is that of the save point, if undo was
/// collected at each change of the text since. GETMODIFY answers 0 only if the document counts as unmodified.
pub fn an_unmodified_document_has_its_saved_text()
    ensures text { UnmodifiedIsTheSavedText }
    ensures told { GetModifyTells }
{
    ed_model::soundness_is_kept();
    ed_model::plans_are_fit();
    ed_model::earlier_texts_are_kept();
    ed_model::undo_and_redo_give_back_the_text();
    ed_model::a_change_is_appended();
    ed_model::seals_and_groups();
    ed_model::positions_after_a_step();
}

/// A document counts as unmodified when it is created, and after SETSAVEPOINT and EMPTYUNDOBUFFER; GETMODIFY then
/// answers 0. In every state that a run reaches and in which GETMODIFY would answer 0, the text is that of the last of
/// these three, if undo was collected at each change of the text since.
pub fn an_unmodified_document_has_its_last_saved_text()
    ensures saved { SavedIsUnmodified }
    ensures told { UnmodifiedIsTold }
    ensures text { UnmodifiedIsTheLastSavedText }
    ensures asked { ToldUnmodifiedIsTheLastSavedText }
{
    an_unmodified_document_has_its_saved_text();
    ed_model::session_is_sound();
    ed_model::soundness_is_kept();
    ed_model::plans_are_fit();
}
