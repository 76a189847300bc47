//! The places where the lines of a text start. A step updates them from the bytes around it alone.
//!
//! ```text
//! text     a CR LF b CR c LF d        four lines
//! starts   0       3    5    7        length 8
//! ```
//!
//! Whether a line starts at a place depends on the three bytes before it and the one behind it, or on one byte on each
//! side if line ends of Unicode do not count. So a step tests only the places up to two bytes behind its end, or up to
//! its end. The starts before it stay, and those behind it move with the text. The text itself is kept elsewhere, and
//! given as two slices, as a gap buffer has it.
//!
//! Contracts see the kind of line ends, the starts, the length, and how many lines fit in. `ed_model` defines what
//! the starts are: `line_starts` of the text.
#![tactic(auto)]

mod adding;
mod change;
mod edit;
mod edits;
mod halves;
mod index;
mod laws;
mod marks;
mod near;
mod room;
mod settings;
mod starts;
mod steps;
mod unicode_blocks;
mod whole;

pub use change::{LineChange, LinesAbout, NearLines};
pub use edit::LineEdit;
pub use edits::LineEdits;
pub use index::LineIndex;
pub use laws::{edits_of_settings, edits_of_steps};
pub use near::near_step;
pub use room::{lines_for_deletion, lines_for_insertion, lines_in, room_for_steps};
pub use settings::fresh_lines;
