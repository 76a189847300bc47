//! Line ends of a text, and their conversion to one kind.
//!
//! ```text
//! text        a CR b CR LF c LF d
//! for CRLF    a CR LF b CR LF c CR LF d      an LF and a CR were missing
//! for LF      a CR LF b CR LF c LF d         an LF was missing, and two CRs are unwanted
//! for CR      a CR b CR LF c CR LF d         a CR was missing, and two LFs are unwanted
//! ```
//!
//! In a document each byte that is inserted or deleted is a step of its own. First the missing bytes are inserted from
//! left to right, and then the unwanted ones are deleted from left to right. So the search for the next step starts at
//! the place of the last one, in the text as that step left it. The text is given as two slices, as a gap buffer has
//! it. A text that is pasted is converted as it is copied. `ed_model` defines the steps (`conversion_steps`) and the
//! converted text (`converted`).
#![tactic(auto)]

mod counting;
mod finding;
mod pasting;
mod reading;

pub use counting::{
    conversion_stays_within, count_missing, count_unwanted, has_conversion, has_several,
};
pub use finding::{next_missing, next_unwanted};
pub use pasting::{convert_into, converted_len};
