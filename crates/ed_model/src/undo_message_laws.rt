//! Laws of the messages UNDO and REDO.

ghost use Rattle.ed_model.specs.RepeatedUndoLaws.{
  ClosingLeavesDocumentsAlone,
  MessagesLeaveOtherDocumentsAlone,
  OpeningLeavesDocumentsAlone,
  UndoMessagesGoBack,
  UndosGoBackThenRedosGoOn,
};
ghost use Rattle.ed_model.specs.UndoMessageLaws.{RedoIsNeverTooLong, UndoIsNeverTooLong};

/// In a sound session UNDO and REDO are never refused with TooLong, since each text on their way was there before.
pub fn undo_and_redo_are_never_too_long()
    ensures undo { UndoIsNeverTooLong }
    ensures redo { RedoIsNeverTooLong }
{}

/// Each UNDO message goes back one transaction, and as many REDO messages then lead to the text at first. Other commands may come
/// between if they leave the document alone.
pub fn undo_and_redo_messages_lead_there_and_back()
    ensures { UndosGoBackThenRedosGoOn }
{}

/// Each UNDO message goes back one transaction. Other commands may come between if they leave the document alone.
pub fn undo_messages_go_back()
    ensures { UndoMessagesGoBack }
{}

/// A message changes the text and the history of no document except that of its view. Opening and closing a view changes those of none.
pub fn other_documents_are_left_alone()
    ensures messages { MessagesLeaveOtherDocumentsAlone }
    ensures opening { OpeningLeavesDocumentsAlone }
    ensures closing { ClosingLeavesDocumentsAlone }
{}
