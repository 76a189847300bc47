//! The markers of lines: for each line a list of markers. Each marker has a handle, which is never given again, and a
//! number from 0 to 31.
//!
//! The markers of a line are a chain of links, from the last marker to the first. All links stand in one vector, in the
//! order in which they were first needed. The first link of each line's chain stands in a vector of their numbers, from
//! the first marker on: before it, a document stores only its number of lines.
//!
//! ```text
//! line 0 | line 1: a b | line 2 | line 3: c            firsts 0 2 0 3; links 1: a, then 0; 2: b, then 1; 3: c, then 0
//! ```
//!
//! Links without a marker form the spare chain. To change the markers of a line, they are laid aside one by one, on a
//! chain from the first to the last, and put back. So each change moves the first link of one chain to the front of
//! another, which writes one link.
//!
//! What a call costs: a marker is added in a few writes. To delete one, or to read a mask, passes the markers of its line.
//! A search for a line reads a number for each line that it passes, and lines without markers in blocks. To insert or join
//! lines also moves the numbers between their place and that of the last such edit.
//!
//! `links` has one link, `chains` the chains and what moves one link, `rows` the changes of a line, `searches` the searches
//! for one, `zeros` those of a slice of numbers, and `store` also covers lines before the first marker.
#![tactic(auto)]

mod chains;
mod drops;
mod links;
mod markers;
mod rows;
mod searches;
mod store;
mod zeros;

#[doc(hidden)]
pub use chains::Chains;
#[doc(hidden)]
pub use links::Link;
#[doc(hidden)]
pub use markers::Marker;
pub use store::{GREATEST_LINES, MarkerStore};
