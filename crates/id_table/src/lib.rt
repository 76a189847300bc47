//! `IdTable`: values under rising ids, none of which is ever given twice.
//!
//! Only `reserve` allocates.
#![tactic(auto)]

mod table;

pub use table::IdTable;
