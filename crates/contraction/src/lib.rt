//! `Contraction`: which lines of a view are visible, and which are expanded.
//!
//! ```text
//! line          0  1  2  3  4  5      lines 2 and 3 are hidden
//! display line  0  1  1  1  2  3      a hidden line has that of the visible line before it
//! ```
//!
//! The hidden lines and the contracted ones are two sets, each stored as rising numbers that move with the text. So a
//! view with all lines visible and expanded stores nothing but its number of lines, inserted lines need no allocation,
//! and a look-up is a binary search. Before it searches, it tries the place where the last look-up ended.
#![tactic(auto)]

mod carry;
mod changes;
mod contraction;
mod folding;
pub mod folds;
mod levels;
mod line_set;

pub use contraction::Contraction;
pub use levels::Levels;
