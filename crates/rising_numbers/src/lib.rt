//! Rising numbers below a length that move with it, as the starts of lines do, or the numbers of folded lines.
//!
//! ```text
//! numbers      2  3     5  6       four numbers
//!           |--|--|-----|--|----|  length 8
//! ```
//!
//! Text that is inserted before a number, or deleted, moves every number from there on. These are not changed one by
//! one. Up to a place in the list, the step, numbers are stored as they are, and behind it as their distances to the
//! end, so that they move with the end. A change elsewhere moves the step there first, and changes only the numbers
//! between the two. A number that is inserted or removed changes no other. So edits near one another are cheap, however
//! long the text is; inserting a number costs one move in memory; and a look-up costs one subtraction more.
//!
//! Contracts see the numbers and the length, and not how they are stored.
#![tactic(auto)]

mod counted;
mod edits;
mod laws;
mod lookups;
mod numbers;
mod places;
mod quarters;
mod stepping;

pub use counted::Probes;
pub use laws::steps_add_up;
pub use numbers::RisingNumbers;
pub use places::Place;
