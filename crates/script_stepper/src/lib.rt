//! Steppers: a script that is performed one command at a time, forwards and backwards.
#![tactic(auto)]

mod fault;
mod stepper;

pub use fault::StepFault;
pub use stepper::Stepper;
