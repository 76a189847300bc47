//! Indicators: 32 of them, each with a value at each place of a text, such as a kind of underline, or 0 for none.
//!
//! An indicator has runs from its first fill on, until it is 0 everywhere again. So a text without indicators stores
//! its length alone, and the cost of a step grows with the number of indicators in use.
#![tactic(auto)]

mod decorations;
mod slots;
mod spare;

pub use decorations::Decorations;
