//! A text cut into partitions, as a document is into lines: where each one starts, and the length of the whole.
//!
//! ```text
//! starts   0      5    7  8        three partitions, and one more that is empty
//!          |------|----|--|        length 8
//! ```
//!
//! The starts are `RisingNumbers` of which the first is 0. So edits near one another are cheap, however long the text
//! is; inserting a start costs one move in memory; and a look-up costs one subtraction more.
//!
//! Contracts see the starts and the length, and not how they are stored.
#![tactic(auto)]

mod edits;
mod table;

pub use rising_numbers::{Place, Probes, steps_add_up};
pub use table::Partitioning;
