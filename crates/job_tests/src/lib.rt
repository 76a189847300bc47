//! Tests of jobs on scripts, by the public calls of `script_jobs`, `script_ends` and `job_words`.
#![tactic(auto)]

#[cfg(test)]
mod memory;
#[cfg(test)]
mod script_jobs_tests;
