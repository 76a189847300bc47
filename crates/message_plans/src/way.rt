//! `Way`: how a session answers a message.

ghost use Rattle.std.specs.Prelude.{◌≡◌};
ghost use Rattle.message_plans.specs.Ways.{kind_in};

use ed_types::Kind;

/// How a session answers a message: queries and changes of the view or document without a plan, where nothing has to be told of them, and all else by
/// its plan. It has the message's kind.
#[derive(Clone, Copy)]
pub enum Way {
    /// A numeric query, which is answered by a number.
    Question(Kind),
    /// A text query, which is answered by bytes of the document.
    TextQuestion(Kind),
    /// A change of the view alone, which is one change or none: a setting, a search in the target, or lines shown or hidden.
    ViewChange(Kind),
    /// A change of the document other than an edit of its text, which is one change or none.
    DocumentChange(Kind),
    /// Any other message of the profile, which is planned and performed.
    Planned(Kind),
    /// None: the profile has no message with the number.
    Unknown,
}

impl Way {
    /// Returns the message's kind, or `None` if the profile has no such message.
    pub fn kind(self) -> Option<Kind>
        ensures { result ≡ kind_in self }
    {
        match self {
            Way::Question(kind) => Some(kind),
            Way::TextQuestion(kind) => Some(kind),
            Way::ViewChange(kind) => Some(kind),
            Way::DocumentChange(kind) => Some(kind),
            Way::Planned(kind) => Some(kind),
            Way::Unknown => None,
        }
    }
}
