//! The text of a document: its bytes, and a style for each.
#![tactic(auto)]

mod cells;
mod growth;
mod laws;
mod styling;

pub use cells::Cells;
pub use laws::costs_add_up;
