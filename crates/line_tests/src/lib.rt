//! Tests of lines and their state, in a document and in a view, by public calls.
#![tactic(auto)]

#[cfg(test)]
mod contraction_tests;
#[cfg(test)]
mod ed_view_tests;
#[cfg(test)]
mod large_tests;
#[cfg(test)]
mod line_index_tests;
#[cfg(test)]
mod line_rows_tests;
#[cfg(test)]
mod marker_store_tests;
