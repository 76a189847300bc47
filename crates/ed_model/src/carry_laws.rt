//! The laws of carry, for the rows of a document and the flags of a view: the rows after a line is added, after one is joined to
//! another, and of lines that stay. A list of rows needs to change only near a step.

ghost use Rattle.ed_model.specs.Rows.{Flags, Row, flags_together, rows_together};
ghost use Rattle.ed_model.specs.MergeLaws.{JoinsRows, OneLineComes, OneLineGoes, RowsJoinPairwise, RowsOfLinesThatStay};

/// One row alone stays as it is, and rows that meet can be joined two at a time, from the first on.
pub fn rows_that_meet()
    ensures rows { JoinsRows rows_together }
    ensures flags { JoinsRows flags_together }
    ensures rows_pairwise { RowsJoinPairwise Row }
    ensures flags_pairwise { RowsJoinPairwise Flags }
{}

/// Rows of lines that stay do not change, a new line gets a fresh row, and the row of a line that is joined to the one before it
/// is joined to that line's row.
pub fn single_rows()
    ensures rows_stay { RowsOfLinesThatStay Row }
    ensures flags_stay { RowsOfLinesThatStay Flags }
    ensures row_comes { OneLineComes Row }
    ensures flags_come { OneLineComes Flags }
    ensures row_goes { OneLineGoes Row }
    ensures flags_go { OneLineGoes Flags }
{}
