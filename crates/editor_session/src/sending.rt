//! A message on its way through a session. `way_of` says by its number which way it takes: a numeric query is answered by a number, a text query
//! by bytes of the document. A change of the view alone is made without a plan, and so is one of the document other than an edit of its text, unless
//! something has to be told of it. All other messages are planned and performed, and so is what is refused.

ghost use Rattle.std.specs.Prelude.{◌≡◌, Ok, Some, IfNone, IfSome};
ghost use Rattle.ed_types.specs.Messages.{kind_of};
ghost use Rattle.ed_model.specs.Performing.{quiet};
ghost use Rattle.ed_model.specs.Table.{table};
ghost use Rattle.message_plans.specs.Asking.{question_of, text_question_of};
ghost use Rattle.message_plans.specs.Ways.{kind_in, question_in, text_question_in};
ghost use Rattle.editor_session.specs.Answers.{told, IsLeft, IsAnswered};

use crate::asking::ask_as;
use crate::find::find;
use crate::perform::{Task, make_change, perform_message};
use crate::reading::read_into;
use crate::session::Session;
use crate::setting::{is_recorded, set};
use ed_model::plans_are_fit;
use ed_types::modification::{CHANGE_FOLD, CHANGE_MARKER, CHANGE_STYLE};
use ed_types::{Bytes, Kind, Refusal, Reply};
use message_plans::{Way, document_change_of, plan_of, way_of};
use message_requests::SentMessage;

/// The bits by which a view listens for the changes that are sent by the thousand: of styles, fold levels and markers. It is then likely that a change
/// has notes.
const FREQUENT_CHANGES: u32 = CHANGE_STYLE | CHANGE_FOLD | CHANGE_MARKER;

/// Plans and performs a message to `view`. Replaces `reply` by the message's reply, and returns the value. Out of line, so that no other message
/// pays for its stack frame, which takes 18 instructions.
///
/// # Errors
///
/// The refusal of the message table, or `OutOfMemory` if an allocation fails. The session and `reply` are then as they were.
#[inline(never)]
fn answer_by_plan(
    session: &mut Session,
    view: u32,
    kind: Option<Kind>,
    message: &SentMessage,
    reply: &mut Reply,
) -> Result<i64, Refusal>
    requires kind { kind ≡ kind_of message.now.number }
    ensures answered { IsAnswered session.old view message.now session.new (told result reply.new) }
    ensures place { IsLeft result reply.old reply.new }
{
    // States that a plan's numbers are in range, and that no plan is refused for want of memory.
    plans_are_fit();
    let (kind, request) = find(session, view, kind, message)?;
    let task = Task {
        view,
        document: request.document.id(),
        message,
        is_recorded: is_recorded(kind, &request),
    };
    // Bound to a local so that the plan of 80 bytes is not copied.
    let planned = plan_of(kind, &request);
    match &planned {
        Ok(plan) => perform_message(session, &task, plan, reply),
        Err(refusal) => Err(*refusal),
    }
}

/// Answers a change of the document of `view`: makes it without a list of notifications, if nothing has to be told of it. When it was tried, SETSTYLING of
/// 5 bytes took 549 instructions by a plan and 501 so. Out of line, as all ways but that of numeric queries: as one function, their stack frames are
/// one of all, and SETTARGETRANGE takes 84 instructions more, a byte typed 70.
///
/// # Errors
///
/// Those of `answer_by_plan`.
#[inline(never)]
fn answer_change(
    session: &mut Session,
    view: u32,
    kind: Kind,
    message: &SentMessage,
    reply: &mut Reply,
) -> Result<i64, Refusal>
    requires kind { Some kind ≡ kind_of message.now.number }
    ensures answered { IsAnswered session.old view message.now session.new (told result reply.new) }
    ensures place { IsLeft result reply.old reply.new }
{
    // States that a plan's numbers are in range.
    plans_are_fit();
    let (found, request) = find(session, view, Some(kind), message)?;
    let task = Task {
        view,
        document: request.document.id(),
        message,
        is_recorded: is_recorded(found, &request),
    };
    let listens = request.view.mask() & FREQUENT_CHANGES != 0;
    let Some(plan) = document_change_of(found, &request) else {
        return answer_by_plan(session, view, Some(kind), message, reply);
    };
    make_change(session, &task, plan, listens, reply)
}

/// Answers a message to `view` at once, if it is a numeric query, or a change of the view alone that is not recorded. Returns the value, which is the
/// whole reply. With `None`, nothing has changed, and the message has to be answered otherwise.
#[inline(always)]
fn answer_at_once(session: &mut Session, view: u32, way: Way, message: &SentMessage) -> Option<i64>
    requires kind { kind_in way ≡ kind_of message.now.number }
    requires question { question_in way ≡ question_of message.now.number }
    ensures done { IfSome result (λ value. table session.old view message.now ≡ Ok (session.new, quiet value)) }
    ensures same { IfNone result (session.new ≡ session.old) }
{
    match way {
        Way::Question(kind) => ask_as(session, view, kind, message),
        Way::ViewChange(kind) => set(session, view, kind, message),
        _ => None,
    }
}

/// Answers a message to `view` that was not answered at once.
#[inline(always)]
fn answer_otherwise(
    session: &mut Session,
    view: u32,
    way: Way,
    message: &SentMessage,
    reply: &mut Reply,
) -> Result<i64, Refusal>
    requires kind { kind_in way ≡ kind_of message.now.number }
    requires text_question { text_question_in way ≡ text_question_of message.now.number }
    ensures answered { IsAnswered session.old view message.now session.new (told result reply.new) }
    ensures place { IsLeft result reply.old reply.new }
{
    match way {
        Way::TextQuestion(kind) => {
            if let Some(value) = read_into(session, view, kind, message, reply) {
                return Ok(value);
            }
        }
        Way::DocumentChange(kind) => {
            return answer_change(session, view, kind, message, reply);
        }
        _ => {}
    }
    answer_by_plan(session, view, way.kind(), message, reply)
}

/// Answers a message to `view`. Replaces `reply` by the message's reply, and returns the value.
///
/// # Errors
///
/// The refusal of the message table, or `OutOfMemory` if an allocation fails. The session and `reply` are then as they were.
#[inline(always)]
pub(crate) fn answer_into(
    session: &mut Session,
    view: u32,
    message: &SentMessage,
    reply: &mut Reply,
) -> Result<i64, Refusal>
    ensures answered { IsAnswered session.old view message.now session.new (told result reply.new) }
    ensures place { IsLeft result reply.old reply.new }
{
    let way = way_of(message.number);
    if let Some(value) = answer_at_once(session, view, way, message) {
        reply.answer(value);
        return Ok(value);
    }
    answer_otherwise(session, view, way, message, reply)
}

/// Answers a message to `view`.
///
/// # Errors
///
/// The refusal of the message table, or `OutOfMemory` if an allocation fails. The session is then as it was.
pub(crate) fn answer_message(
    session: &mut Session,
    view: u32,
    message: &SentMessage,
) -> Result<Reply, Refusal>
    ensures answered { IsAnswered session.old view message.now session.new result }
{
    let way = way_of(message.number);
    if let Some(value) = answer_at_once(session, view, way, message) {
        return Ok(Reply::quiet(session.alloc, value, Bytes::empty(session.alloc)));
    }
    let mut reply = Reply::quiet(session.alloc, 0, Bytes::empty(session.alloc));
    match answer_otherwise(session, view, way, message, &mut reply) {
        Ok(_) => Ok(reply),
        Err(refusal) => Err(refusal),
    }
}
