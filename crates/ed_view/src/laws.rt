//! Laws: what `ed_model` says of fit plans, and of a view under a step, in the words of this crate.
ghost use Rattle.ed_view.specs.Folding.{FitChangesAreWithin};
ghost use Rattle.ed_view.specs.Moving.{MovesAreThoseOfSteps, StepsFitViews};

use ed_model::rows_that_meet;
use line_index::edits_of_steps;
use selection::movements_are_those_of_steps;

/// The lines that a fit change of a view names are lines of its document.
pub fn fit_changes_are_within()
    ensures { FitChangesAreWithin }
{}

/// A view with the flags of its document's lines follows a step of the document like the model's view.
pub fn moves_are_those_of_steps()
    ensures view { MovesAreThoseOfSteps }
    ensures fit { StepsFitViews }
{
    rows_that_meet();
    edits_of_steps();
    movements_are_those_of_steps();
}
