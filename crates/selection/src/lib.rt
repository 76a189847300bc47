//! Anchor and caret of a view: how steps of the text move them, and where keys move them.
//!
//! ```text
//! text     a | b c d | e        anchor 4, caret 1: `bcd` is selected
//!            caret   anchor
//! ```
//!
//! A step moves every position of every view that watches. An insertion moves the positions behind its place, and
//! leaves one at it. A deletion moves the positions inside the deleted bytes to their start. A key moves the caret to a
//! place that depends on the text and its lines, and the anchor with it, unless it extends the selection.
#![tactic(auto)]

mod keys;
mod laws;
mod movements;
mod selections;

pub use keys::Motion;
pub use laws::movements_are_those_of_steps;
pub use movements::Movement;
pub use selections::Selection;
