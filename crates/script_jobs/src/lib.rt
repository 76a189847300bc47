//! Jobs on scripts, from any source of bytes to any sink: scripts are run, and the jobs of a command line are
//! performed. The program itself only opens files and returns an exit status.
#![tactic(auto)]

mod notes;
mod running;

pub use running::{run_job, run_script, run_without_notes};
