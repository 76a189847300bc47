//! Numeric queries to a session, which are answered without a plan.

ghost use Rattle.std.specs.Prelude.{◌≡◌, Some};
ghost use Rattle.message_plans.specs.Asking.{question_of};
ghost use Rattle.editor_session.specs.Answers.{AnswersQuery};

use crate::attached::{look_up, request_to};
use crate::session::Session;
use ed_types::{Kind, kinds_and_numbers};
use message_plans::{Way, value_of, way_of};
use message_requests::SentMessage;

/// Returns the value of this numeric query to `view`, or `None` if the table refuses it. Inlined, with its callers, into each call of `Session`: by
/// instructions counted, GETLENGTH through the library for C takes 148 so, and 203 as a call.
#[inline(always)]
pub(crate) fn ask_as(session: &Session, view: u32, kind: Kind, message: &SentMessage) -> Option<i64>
    requires question { question_of message.now.number ≡ Some kind }
    ensures { AnswersQuery session.now view message.now result }
{
    // States that each kind is found by its number.
    kinds_and_numbers();
    let Some(found) = look_up(&session.state, view) else {
        return None;
    };
    let request = request_to(&session.state, found, message);
    value_of(kind, &request)
}

/// Returns the value of a numeric query to `view`. Returns `None` for all other messages and for what the table
/// refuses; such a message has to be sent. Allocates nothing.
#[inline(always)]
pub(crate) fn ask(session: &Session, view: u32, message: &SentMessage) -> Option<i64>
    ensures { AnswersQuery session.now view message.now result }
{
    match way_of(message.number) {
        Way::Question(kind) => ask_as(session, view, kind, message),
        _ => None,
    }
}
