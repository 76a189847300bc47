//! The laws of lines: their starts, and how a step moves positions and carries rows. Each is the contract of a public function
//! with an empty body, and holds for all texts, steps and rows.

ghost use Rattle.ed_model.specs.Rows.{Flags, Row};
ghost use Rattle.ed_model.specs.StepLaws.{CellsFollowBytes, DeletionsShorten, InsertionsLengthen, PositionsKeepTheirOrder, PositionsStayInRange, StartsKeepTheirOrder, StartsStayInRange};
ghost use Rattle.ed_model.specs.CarryLaws.{CarriesToEachLine, RegroupingLeavesARowForEachLine, StepsLeaveARowForEachLine};

/// A step moves positions and line starts to places in the new text, and keeps their order. It changes the length by its bytes.
pub fn positions_after_a_step()
    ensures insertions_lengthen { InsertionsLengthen }
    ensures deletions_shorten { DeletionsShorten }
    ensures cells_follow_bytes { CellsFollowBytes }
    ensures positions_in_range { PositionsStayInRange }
    ensures starts_in_range { StartsStayInRange }
    ensures positions_in_order { PositionsKeepTheirOrder }
    ensures starts_in_order { StartsKeepTheirOrder }
{}

/// After a carry a document has a row, and a view has flags, for each line of the new text.
pub fn rows_match_lines()
    ensures rows_carried { CarriesToEachLine Row }
    ensures flags_carried { CarriesToEachLine Flags }
    ensures rows_after_steps { StepsLeaveARowForEachLine Row }
    ensures flags_after_steps { StepsLeaveARowForEachLine Flags }
    ensures rows_regrouped { RegroupingLeavesARowForEachLine Row }
    ensures flags_regrouped { RegroupingLeavesARowForEachLine Flags }
{}
