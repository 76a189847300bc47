//! Tests of scripts that are performed step by step, and of recordings, by public calls.
#![tactic(auto)]

#[cfg(test)]
mod recorder_tests;
#[cfg(test)]
mod script_stepper_tests;
