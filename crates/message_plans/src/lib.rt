//! Plans of messages: what each is going to do, or why it is refused.
//!
//! A plan is made before anything changes: `plan_of` reads a `Request` and returns the model's plan. It calls the message's function in
//! `text_plans` or `state_plans`. `value_of` and `handed_of` answer queries without a plan; `view_change_of` has what a message changes in
//! its view, and `document_change_of` what in its document. `way_of` says which of these a message is for, by its number.
#![tactic(auto)]

mod asking;
mod plan;
mod settings;
mod way;

pub use asking::{handed_of, value_of, way_of};
pub use plan::plan_of;
pub use settings::{document_change_of, view_change_of};
pub use way::Way;
