//! The laws of markers' handles.

ghost use Rattle.ed_model.specs.HandleLaws.{ChangesGiveNoOldHandle, NextHandlesNeverFall, StepsGiveNoHandle};

/// No step and no change of a document gives a handle that was given before, and the next handle never decreases.
pub fn no_handle_is_given_anew()
    ensures steps { StepsGiveNoHandle }
    ensures changes { ChangesGiveNoOldHandle }
    ensures next { NextHandlesNeverFall }
{}
