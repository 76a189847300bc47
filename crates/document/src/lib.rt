//! A document under a step: everything that the model's `Document` has, in one value that a step changes as a whole.
//!
//! A step of the text changes everything: the cells, the line starts, the rows of lines, the indicators, and the place
//! up to which the document is styled. Another call appends the step to the history, so that undo and redo make steps,
//! too. `reserve` allocates all memory before; the calls after it cannot fail.
#![tactic(auto)]

mod changes;
mod kept;
mod line_queries;
mod making;
mod need;
mod pieces;
mod places;
mod row_changes;
mod stepping;
mod style_changes;
mod text_step;
mod type_changes;
mod undoing;

pub use kept::Document;
pub use need::DocumentNeed;
pub use places::Places;
pub use row_changes::count_numbers;
pub use text_step::TextStep;
pub use undoing::{ChangeOutline, Direction};
