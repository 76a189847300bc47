//! Stepping through a script, from any source of orders to any sink: describes what each command does, and shows the
//! views.
#![tactic(auto)]

mod look;
mod orders;
mod say;
mod stepping;
mod walk;

pub use stepping::step_commands;
