//! Laws of several transactions undone and redone.

ghost use Rattle.ed_model.specs.UndoLaws.{BegunContainerStepIsOneTransactionMore, BegunStepIsOneTransactionMore, JoinedContainerStepKeepsEarlierTexts, JoinedStepKeepsEarlierTexts, RedoIsOneTransactionMore, SealsKeepEarlierTexts, UndoKeepsEarlierTexts};

/// The texts to which undo goes back do not change, whatever is appended, undone, redone or sealed.
pub fn earlier_texts_are_kept()
    ensures begun { BegunStepIsOneTransactionMore }
    ensures joined { JoinedStepKeepsEarlierTexts }
    ensures container_begun { BegunContainerStepIsOneTransactionMore }
    ensures container_joined { JoinedContainerStepKeepsEarlierTexts }
    ensures undo { UndoKeepsEarlierTexts }
    ensures redo { RedoIsOneTransactionMore }
    ensures seals { SealsKeepEarlierTexts }
{}
