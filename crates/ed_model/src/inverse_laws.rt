//! Laws of inverses: the inverse of a step restores what the step changed; undo and redo restore what a transaction changed.

ghost use Rattle.ed_model.specs.InverseLaws.{RedoMakesItsSteps, RedoThenUndoGivesBackTheText, UndoMakesItsSteps, UndoThenRedoGivesBackTheText};

/// Undo and redo perform the steps of their changes, and each restores the text that the other changed.
pub fn undo_and_redo_give_back_the_text()
    ensures undo { UndoMakesItsSteps }
    ensures redo { RedoMakesItsSteps }
    ensures undo_then_redo { UndoThenRedoGivesBackTheText }
    ensures redo_then_undo { RedoThenUndoGivesBackTheText }
{}
