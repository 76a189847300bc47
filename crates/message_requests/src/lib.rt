//! Requests: a message with all that its plan reads, and what plans are made of: arguments, answers and edits.
//!
//! The crates with the plans of the messages use this one: `text_plans`, `state_plans` and `message_plans`.
#![tactic(auto)]

pub mod answers;
pub mod arguments;
pub mod edits;
mod request;
mod state;

pub use request::{Request, SentMessage, past_argument};
pub use state::SessionState;
