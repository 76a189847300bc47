//! A table's documents after one has lost a reference are those of the session's model.
ghost use Rattle.document_table.specs.Leaving.{LeavesTheLiving};

/// The documents that are left after one has lost a reference are those that still have one, each changed as the model
/// says.
pub fn the_living_are_left()
    ensures { LeavesTheLiving }
{}
