//! Plans of the messages on undo and redo, and on whether the text can be edited at all.

ghost use Rattle.std.specs.Prelude.{◌≡◌};
ghost use Rattle.ed_model.specs.Requests.{answer};
ghost use Rattle.ed_model.specs.UndoPlans.{add_undo_action, begin_undo_action, empty_undo_buffer, end_undo_action, get_can_redo, get_can_undo, get_modify, get_read_only, get_undo_collection, redo, set_read_only, set_save_point, set_undo_collection, undo};
ghost use Rattle.message_requests.specs.Changing.{changed};
ghost use Rattle.state_plans.specs.Acting.{act_if};

use ed_model::{DocumentChange, Plan, Planned, undo_and_redo_are_never_too_long};
use ed_types::Refusal;
use message_requests::Request;
use message_requests::answers::{ChangePlan, answer, change_document, change_nothing, flag};
use message_requests::arguments::{is_on, within};

/// SETUNDOCOLLECTION: sets whether the history collects steps. To turn collecting on while it is on changes nothing.
pub fn set_undo_collection(r: &Request) -> Result<ChangePlan, Refusal>
    ensures { changed result ≡ set_undo_collection r.now }
{
    let on = is_on(r.message.w);
    if on && r.document.history().is_collecting() {
        return change_nothing(0);
    }
    change_document(DocumentChange::CollectUndo { on })
}

/// GETUNDOCOLLECTION: returns whether the history collects steps.
pub fn get_undo_collection(r: &Request) -> i64
    ensures { answer result ≡ get_undo_collection r.now }
{
    flag(r.document.history().is_collecting())
}

/// Plans undo or redo, if there is something to perform. In a read-only document it is only an attempt.
fn act_if(can: bool, read_only: bool, act: Plan) -> Planned
    ensures { result ≡ act_if can read_only act }
{
    if !can {
        return answer(0);
    }
    Ok(if read_only { Plan::Attempt } else { act })
}

/// UNDO: undoes the last transaction. No step of it exceeds the limit, since the text was that long before.
pub fn undo(r: &Request) -> Planned
    ensures { result ≡ undo r.now }
{
    undo_and_redo_are_never_too_long();
    act_if(
        r.document.history().can_undo(),
        r.document.is_read_only(),
        Plan::Undo,
    )
}

/// REDO: performs the next transaction again. No step of it exceeds the limit, since the text was that long before.
pub fn redo(r: &Request) -> Planned
    ensures { result ≡ redo r.now }
{
    undo_and_redo_are_never_too_long();
    act_if(
        r.document.history().can_redo(),
        r.document.is_read_only(),
        Plan::Redo,
    )
}

/// CANUNDO: returns whether there is something to undo in a document that can be edited.
pub fn get_can_undo(r: &Request) -> i64
    ensures { answer result ≡ get_can_undo r.now }
{
    flag(r.document.history().can_undo() && !r.document.is_read_only())
}

/// CANREDO: returns whether there is something to redo in a document that can be edited.
pub fn get_can_redo(r: &Request) -> i64
    ensures { answer result ≡ get_can_redo r.now }
{
    flag(r.document.history().can_redo() && !r.document.is_read_only())
}

/// GETREADONLY: returns whether the document is read-only.
pub fn get_read_only(r: &Request) -> i64
    ensures { answer result ≡ get_read_only r.now }
{
    flag(r.document.is_read_only())
}

/// SETREADONLY: sets whether the document is read-only.
pub fn set_read_only(r: &Request) -> Result<ChangePlan, Refusal>
    ensures { changed result ≡ set_read_only r.now }
{
    change_document(DocumentChange::SetReadOnly {
        on: is_on(r.message.w),
    })
}

/// GETMODIFY: returns whether the document is not at its save point.
pub fn get_modify(r: &Request) -> i64
    ensures { answer result ≡ get_modify r.now }
{
    flag(!r.document.history().is_at_save_point())
}

/// SETSAVEPOINT: makes the current state the save point.
pub fn set_save_point(r: &Request) -> Result<ChangePlan, Refusal>
    ensures { changed result ≡ set_save_point r.now }
{
    change_document(DocumentChange::SetSavePoint)
}

/// BEGINUNDOACTION: begins a group, unless groups are nested too deeply.
pub fn begin_undo_action(r: &Request) -> Result<ChangePlan, Refusal>
    ensures { changed result ≡ begin_undo_action r.now }
{
    if r.document.history().depth() < r.session.limits.depth {
        change_document(DocumentChange::BeginGroup)
    } else {
        Err(Refusal::TooMany)
    }
}

/// ENDUNDOACTION: ends a group.
pub fn end_undo_action(r: &Request) -> Result<ChangePlan, Refusal>
    ensures { changed result ≡ end_undo_action r.now }
{
    change_document(DocumentChange::EndGroup)
}

/// EMPTYUNDOBUFFER: empties the history.
pub fn empty_undo_buffer(r: &Request) -> Result<ChangePlan, Refusal>
    ensures { changed result ≡ empty_undo_buffer r.now }
{
    change_document(DocumentChange::ForgetHistory)
}

/// ADDUNDOACTION: appends a container's step with token `w`, which coalesces if `l` is 1.
pub fn add_undo_action(r: &Request) -> Result<ChangePlan, Refusal>
    ensures { changed result ≡ add_undo_action r.now }
{
    match within(0, 1, r.message.l) {
        Some(flags) => change_document(DocumentChange::AppendContainer {
            token: r.message.w,
            coalesce: flags == 1,
        }),
        None => Err(Refusal::BadArgument),
    }
}
