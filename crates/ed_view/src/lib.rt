//! `View`: the state of a view, how messages change it, and how a step of the text moves it.
//!
//! A view has anchor and caret, a target, settings, and the flags of each line of its document: whether the line is
//! visible, and whether it is expanded. It does not read the text. Whoever makes a step passes its place and length and
//! its effect on the lines. The view follows without an allocation, so that a step cannot fail because several views
//! watch the document. Memory is allocated only when a view is made, and when room for hidden or contracted lines is
//! reserved.
#![tactic(auto)]

mod changes;
mod folding;
mod laws;
mod line_flags;
mod moving;
mod view;

pub use changes::is_setting;
pub use folding::FoldNeed;
pub use laws::{fit_changes_are_within, moves_are_those_of_steps};
pub use line_flags::LineFlags;
pub use view::{Target, View};
