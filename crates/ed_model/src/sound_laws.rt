//! Laws of sound sessions and of fit plans. Each is the contract of a function with an empty body.

ghost use Rattle.ed_model.specs.SoundLaws.{NewSessionIsSound, MessageKeepsSound, OpeningKeepsSound, ClosingKeepsSound, CommandKeepsSound, IsSoundInEveryStateFrom, IsSoundInEveryState};
ghost use Rattle.ed_model.specs.StandingLaws.{StepsKeepViewsStanding};
ghost use Rattle.ed_model.specs.PlansFit.{PlansFit, EditStepsFit, UndoStepsFit, RedoStepsFit, PlansKeepSound};

/// The session is sound in every state that a run reaches, from a new session with any limits, and from any sound session.
pub fn session_is_sound()
    ensures in_every_state { IsSoundInEveryState }
    ensures in_every_state_from { IsSoundInEveryStateFrom }
    ensures new_session { NewSessionIsSound }
{}

/// Messages, opening and closing a view, and all commands keep a sound session sound.
pub fn soundness_is_kept()
    ensures by_messages { MessageKeepsSound }
    ensures by_opening { OpeningKeepsSound }
    ensures by_closing { ClosingKeepsSound }
    ensures by_commands { CommandKeepsSound }
{}

/// The numbers of a plan are in range for its request, its steps can be
/// performed one after another, and performing it keeps the session sound.
pub fn plans_are_fit()
    ensures in_range { PlansFit }
    ensures edit_steps { EditStepsFit }
    ensures undo_steps { UndoStepsFit }
    ensures redo_steps { RedoStepsFit }
    ensures keep_sound { PlansKeepSound }
{}

/// A view that fits its document still fits it after a step of the document.
pub fn steps_keep_views_standing()
    ensures { StepsKeepViewsStanding }
{}
