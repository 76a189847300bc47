//! The marks of messages: what is promised of each, whatever its arguments.

ghost use Rattle.std.specs.Prelude.{◌≡◌};
ghost use Rattle.ed_types.specs.Messages.{marks_at};

use crate::kind::Kind;

/// What is promised of a message, whatever its arguments.
#[derive(Clone, Copy)]
pub struct Columns {
    /// A query: it changes nothing.
    pub q: bool,
    /// It does not allocate (unless it is recorded and its view records).
    pub n: bool,
    /// It edits the text.
    pub e: bool,
    /// A view that records records it.
    pub r: bool,
}

/// Returns the marks of the message with this number, or `None` if the profile has no such message.
pub fn columns_of(number: u32) -> Option<Columns>
    ensures marked { result ≡ marks_at number }
{
    match Kind::from_number(number) {
        Some(kind) => Some(kind.columns()),
        None => None,
    }
}

impl Columns {
    pub(crate) const QUERY: Columns = Columns {
        q: true,
        n: false,
        e: false,
        r: false,
    };

    pub(crate) const QUERY_WITHOUT_MEMORY: Columns = Columns {
        q: true,
        n: true,
        e: false,
        r: false,
    };

    pub(crate) const WITHOUT_MEMORY: Columns = Columns {
        q: false,
        n: true,
        e: false,
        r: false,
    };

    pub(crate) const RECORDED_WITHOUT_MEMORY: Columns = Columns {
        q: false,
        n: true,
        e: false,
        r: true,
    };

    pub(crate) const RECORDED: Columns = Columns {
        q: false,
        n: false,
        e: false,
        r: true,
    };

    pub(crate) const EDIT: Columns = Columns {
        q: false,
        n: false,
        e: true,
        r: false,
    };

    pub(crate) const RECORDED_EDIT: Columns = Columns {
        q: false,
        n: false,
        e: true,
        r: true,
    };

    pub(crate) const UNMARKED: Columns = Columns {
        q: false,
        n: false,
        e: false,
        r: false,
    };
}
