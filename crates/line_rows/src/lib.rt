//! The rows of a document's lines: the markers, the fold level and the state of each.
//!
//! Levels and states are stored for the first lines only, up to the last one that was ever set. Only existing markers
//! are stored. So the lines of a text without any of these take no memory here.
#![tactic(auto)]

mod fold_levels;
mod rows;
mod values;

pub use rows::LineRows;
pub use values::LineValues;
