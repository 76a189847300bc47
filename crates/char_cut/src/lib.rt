//! Where a text may be cut without splitting a character, and which bytes belong to words.
//!
//! ```text
//! text    61  C3 A9  0D 0A  80        `a`, U+00E9, CRLF, and a byte that begins no sequence
//! cuts   0   1      3      5   6
//! ```
//!
//! From its start on, a text consists of CRLF, well-formed UTF-8 sequences, and otherwise single bytes. So the cuts are
//! defined over the whole text. But no byte inside a character can be the first of a longer one, so the bytes around a
//! place determine its character, at the same cost in each text. The text is given as two halves, as a gap buffer has
//! it.
#![tactic(auto)]

mod cuts;
mod sequences;
mod words;

pub use cuts::{after, before};
pub use words::is_word;
