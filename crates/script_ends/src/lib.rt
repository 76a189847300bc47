//! Sources of scripts and sinks of output, and how they fail; and everything that is done with a script without a
//! session: reading, listing and checking it, and showing its bytes.
#![tactic(auto)]

mod ends;
mod fault;
mod listing;
mod output;
mod reading;
pub mod shown;
mod streams;

pub use ends::{ReadFailed, Sink, Source, WriteFailed};
pub use fault::{RunFault, status_of};
pub use listing::{check_script, list_script};
pub use output::{FULL, pour, put, write_all};
pub use reading::{read_file, read_script, read_text};
pub use streams::{ReaderSource, TextSource, WriterSink};
