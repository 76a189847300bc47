//! The calls of a session for programs in C. `include/hongpilas.h` declares them.
//!
//! C holds a session by a handle of one word. Each call returns 0 if it was done, or the number of its refusal. A
//! refused call changes nothing. There is no global state.
#![tactic(auto)]

mod answers;
mod asking;
mod copies;
mod handle;
mod held;
mod lending;
mod names;
mod notes;
mod opening;
mod parts;
mod ranges;
mod replies;
mod sending;
mod starts;
mod views;

pub use handle::Handle;
pub use held::Held;
pub use notes::NoteInC;
pub use opening::LimitsInC;
