//! Performing a plan: room is made for all that it needs, and then all is done. If an allocation fails, nothing has changed.

ghost use Rattle.std.specs.Prelude.{◌≡◌, [], true, OnErr, IfOk, IsOk};
ghost use Rattle.message_requests.specs.Changing.{plan_with};
ghost use Rattle.editor_session.specs.Answers.{told, IsLeft, IsAnswered};
ghost use Rattle.editor_session.specs.Plans.{needs_no_memory};
ghost use Rattle.editor_session.specs.Planned.{IsPlannedAs};
ghost use Rattle.editor_session.specs.Performing.{CanPerform, IsPerformed, request_of};

use crate::changing::{
    perform_attempt, perform_change, perform_unheard_change, perform_view_change,
};
use crate::editing::perform_edit;
use crate::handing_out::{hand_out, hand_out_styled};
use crate::history::perform_transaction;
use crate::left::keep;
use crate::recording::record_if;
use crate::session::Session;
use document::Direction;
use ed_model::{Plan, plans_are_fit};
use ed_types::{Bytes, Refusal, Reply};
use message_requests::SentMessage;
use message_requests::answers::ChangePlan;
use notify::NoteList;
use performing::change_session;
use std::alloc::AllocError;

/// What a plan is performed on, and for whom.
#[derive(Clone, Copy)]
pub(crate) struct Task<'a> {
    /// The id of the view that the message was sent to.
    pub view: u32,
    /// The id of the view's document.
    pub document: u32,
    pub message: &'a SentMessage<'a>,
    /// Whether the view records the message.
    pub is_recorded: bool,
}

/// Performs a plan, and returns the value that its message answers. Its notes are appended to `notes`, and the bytes that
/// it hands out take the place of `handed_out`.
///
/// # Errors
///
/// `AllocError` if an allocation fails. The session is then as it was.
fn perform(
    session: &mut Session,
    task: &Task,
    plan: &Plan,
    handed_out: &mut Vec<u8>,
    notes: &mut NoteList,
) -> Result<i64, AllocError>
    requires can { CanPerform session.old task.now.document task.now.view task.now.message.now plan.now }
    requires empty { handed_out.old.items ≡ [] }
    ensures done { IfOk result (λ value. IsPerformed session.old task.now.view task.now.message.now.text plan.now session.new notes.old.notes notes.new.notes value handed_out.new.items) }
    ensures same { OnErr result (session.new ≡ session.old) }
    ensures free { needs_no_memory (request_of session.old task.now.view task.now.message.now) plan.now ≡ true → IsOk result }
{
    // States that performing a plan keeps the session sound.
    plans_are_fit();
    match plan {
        Plan::Answer { value } => Ok(*value),
        Plan::HandOut {
            value,
            start,
            count,
        } => {
            *handed_out = hand_out(session.alloc, &session.state, task.document, *start, *count)?;
            Ok(*value)
        }
        Plan::HandOutStyled { start, count } => {
            *handed_out = hand_out_styled(
                session.alloc,
                &session.state,
                task.document,
                *start,
                *count,
            )?;
            Ok(handed_out.len() as i64)
        }
        Plan::Edit {
            edit,
            value,
            follow,
        } => {
            perform_edit(session, task, *edit, *follow, notes)?;
            Ok(*value)
        }
        Plan::Attempt => {
            perform_attempt(&session.state, task.document, notes)?;
            Ok(0)
        }
        Plan::Undo => {
            perform_transaction(session, task, Direction::Undo, notes)?;
            Ok(0)
        }
        Plan::Redo => {
            perform_transaction(session, task, Direction::Redo, notes)?;
            Ok(0)
        }
        Plan::ChangeDocument { change, value } => {
            perform_change(session, task, change, notes)?;
            Ok(*value)
        }
        Plan::ChangeView { change, value } => {
            perform_view_change(session, task, *change)?;
            Ok(*value)
        }
        Plan::ChangeSession { change, value } => {
            let message = task.message;
            change_session(
                session.alloc,
                &mut session.state,
                task.document,
                task.view,
                message.text,
                *change,
            )?;
            Ok(*value)
        }
    }
}

/// Performs the plan of a message with all notes, its own first if it is recorded, and leaves the reply in the place of
/// another. Inlined into its two callers: as a call, an edit pays for one more stack frame.
///
/// # Errors
///
/// `OutOfMemory` if an allocation fails. The session and the place of the reply are then as they were.
#[inline(always)]
pub(crate) fn perform_message(
    session: &mut Session,
    task: &Task,
    plan: &Plan,
    reply: &mut Reply,
) -> Result<i64, Refusal>
    requires planned { IsPlannedAs session.old task.now.view task.now.message.now task.now.document plan.now task.now.is_recorded }
    ensures answered { IsAnswered session.old task.now.view task.now.message.now session.new (told result reply.new) }
    ensures place { IsLeft result reply.old reply.new }
{
    let mut notes = NoteList::new(session.alloc);
    record_if(task.is_recorded, task.view, task.message, &mut notes)?;
    let mut handed_out = Vec::new(session.alloc);
    let value = perform(session, task, plan, &mut handed_out, &mut notes)?;
    keep(reply, notes.finish(value, Bytes::new(handed_out)));
    Ok(value)
}

/// Returns the plan that makes this change, if there is one, and answers the value.
fn whole(plan: ChangePlan) -> Plan
    ensures { result ≡ plan_with plan.change plan.value }
{
    let value = plan.value;
    match plan.change {
        Some(change) => Plan::ChangeDocument { change, value },
        None => Plan::Answer { value },
    }
}

/// Makes a change of the document that is heard or recorded. Out of line, so that one that is not does not pay for the plan and the list of
/// notifications.
///
/// # Errors
///
/// Those of `perform_message`.
#[inline(never)]
fn change_aloud(
    session: &mut Session,
    task: &Task,
    plan: ChangePlan,
    reply: &mut Reply,
) -> Result<i64, Refusal>
    requires planned { IsPlannedAs session.old task.now.view task.now.message.now task.now.document (plan_with plan.change plan.value) task.now.is_recorded }
    ensures answered { IsAnswered session.old task.now.view task.now.message.now session.new (told result reply.new) }
    ensures place { IsLeft result reply.old reply.new }
{
    perform_message(session, task, &whole(plan), reply)
}

/// Makes what a message changes in its document, as `perform_message` does, but sets up nothing for notes if nothing changes or no view hears of it.
/// `listens` is whether the message's own view listens for a frequent kind of change.
///
/// # Errors
///
/// Those of `perform_message`.
pub(crate) fn make_change(
    session: &mut Session,
    task: &Task,
    plan: ChangePlan,
    listens: bool,
    reply: &mut Reply,
) -> Result<i64, Refusal>
    requires planned { IsPlannedAs session.old task.now.view task.now.message.now task.now.document (plan_with plan.change plan.value) task.now.is_recorded }
    ensures answered { IsAnswered session.old task.now.view task.now.message.now session.new (told result reply.new) }
    ensures place { IsLeft result reply.old reply.new }
{
    if task.is_recorded {
        return change_aloud(session, task, plan, reply);
    }
    let Some(change) = plan.change else {
        reply.answer(plan.value);
        return Ok(plan.value);
    };
    if !listens && perform_unheard_change(session, task, &change) {
        reply.answer(plan.value);
        return Ok(plan.value);
    }
    change_aloud(session, task, plan, reply)
}
