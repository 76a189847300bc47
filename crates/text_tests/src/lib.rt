//! Tests of texts, their cells, runs and steps, by public calls.
#![tactic(auto)]

#[cfg(test)]
mod cell_buffer_tests;
#[cfg(test)]
mod decorations_tests;
#[cfg(test)]
mod large_tests;
#[cfg(test)]
mod partitioning_tests;
#[cfg(test)]
mod run_styles_tests;
#[cfg(test)]
mod split_vector_tests;
#[cfg(test)]
mod undo_history_tests;
