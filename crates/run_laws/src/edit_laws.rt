//! Laws of messages marked E.

ghost use Rattle.run_laws.specs.EditLaws.{MarkedMessagesTellAttempts, OnlyEditsChangeTexts, OnlyEditsTellOfAttempts};

/// A message that is not marked E, sent to a sound session, leaves the text of every document unchanged, and notifies
/// no view of an attempt to edit. A document that it creates has no text.
pub fn only_edits_change_texts()
    ensures texts { OnlyEditsChangeTexts }
    ensures attempts { OnlyEditsTellOfAttempts }
{
    ed_model::plans_are_fit();
}

/// Each message marked E edits: sent to a read-only document in which it has something to edit, it sends the notes of
/// an attempt.
pub fn marked_messages_edit()
    ensures { MarkedMessagesTellAttempts }
{
    ed_types::kinds_and_numbers();
}
