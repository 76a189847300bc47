//! The documents of a session, found by id.
//!
//! A document lives as long as it has a reference: from a view that is attached, or from a caller that holds it.
#![tactic(auto)]

mod laws;
mod table;

pub use laws::the_living_are_left;
pub use table::DocumentTable;
