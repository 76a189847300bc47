//! The law of undo in whole runs.

ghost use Rattle.ed_model.specs.RunUndoLaws.{CommandsLetDocumentsGoOn, MessagesLetDocumentsGoOn, UndoGoesBackInEveryRun};

/// In every state of a run, undoing k transactions goes back to the text of the latest earlier state with k transactions fewer.
pub fn undo_goes_back_in_every_run()
    ensures messages { MessagesLetDocumentsGoOn }
    ensures commands { CommandsLetDocumentsGoOn }
    ensures runs { UndoGoesBackInEveryRun }
{}
