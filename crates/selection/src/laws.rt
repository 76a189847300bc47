//! A law, a public function with an empty body: this crate's words mean what `ed_model` says of steps.

ghost use Rattle.selection.specs.Laws.{MovementsAreThoseOfSteps};

/// The place, the kind and the length of a step determine how it moves a position.
pub fn movements_are_those_of_steps()
    ensures { MovementsAreThoseOfSteps }
{}
