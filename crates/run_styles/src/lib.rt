//! `RunStyles`: a list of values kept as runs, so that a call costs a look-up and the runs that it touches, however
//! long the list is. Two neighbouring runs never have the same value.
//!
//! A run is a start in a `Partitioning` and a value in a `SplitVector`. Room for runs is reserved first. The calls that
//! may add runs require it: `fill` and `insert_value` need room for two, `insert_space` for one.
#![tactic(auto)]

mod edits;
mod runs;
mod styles;
mod table;

pub use styles::RunStyles;
