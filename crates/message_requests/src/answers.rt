//! Plans that answer a value, hand out bytes of the text, or make one change and answer 0.

ghost use Rattle.std.specs.Prelude.{◌≡◌, ◌<◌, ◌^◌, IfSome};
ghost use Rattle.ed_model.specs.Numbers.{flag};
ghost use Rattle.ed_model.specs.Requests.{answer, change_document, change_session, change_view, with_argument};
ghost use Rattle.ed_model.specs.LinePlans.{line_or_none};
ghost use Rattle.ed_model.specs.TextPlans.{hand_out as hand_out_plan};
ghost use Rattle.message_requests.specs.Changing.{changed, view_changed};
ghost use Rattle.message_requests.specs.HandingOut.{handed_out, handed_or_zero};

use ed_model::{DocumentChange, Plan, Planned, SessionChange, ViewChange};
use ed_types::Refusal;

/// The answer to a text question: a value, and the `count` bytes of the document's text from `start` on.
#[derive(Clone, Copy)]
pub struct HandedOut {
    /// The value that the message answers.
    pub value: i64,
    /// The place of the first byte, in bytes from 0.
    pub start: usize,
    /// The number of bytes.
    pub count: usize,
}

/// Returns the plan that answers `value` and changes nothing.
pub fn answer(value: i64) -> Planned
    ensures { result ≡ answer value }
{
    Ok(Plan::Answer { value })
}

/// Like `answer`, for a value that may be missing.
///
/// # Errors
///
/// `BadArgument` if `value` is `None`.
pub fn answer_some(value: Option<i64>) -> Planned
    ensures { result ≡ with_argument value answer }
{
    match value {
        Some(value) => answer(value),
        None => Err(Refusal::BadArgument),
    }
}

/// Returns a line as a value, counted from 0. `None` becomes -1.
pub fn line_or_none(line: Option<usize>) -> i64
    requires { IfSome line (λ line. line < 2 ^ 63) }
    ensures { result ≡ line_or_none line }
{
    match line {
        Some(line) => line as i64,
        None => -1,
    }
}

/// Returns a flag as a value: 1 if it is on, 0 if it is off.
pub fn flag(on: bool) -> i64
    ensures { result ≡ flag on }
{
    i64::from(on)
}

/// Returns the bytes from `start` up to `past`, with their number as the value. There are none if `past` is before
/// `start`.
pub fn bytes_between(start: usize, past: usize) -> HandedOut
    requires { past < 2 ^ 63 }
    ensures { handed_out result ≡ hand_out_plan start past }
{
    let count = past.saturating_sub(start);
    HandedOut {
        value: count as i64,
        start,
        count,
    }
}

/// Returns the plan that answers the value of `handed` and hands out its bytes.
pub fn hand_out(handed: HandedOut) -> Planned
    ensures { result ≡ handed_out handed }
{
    let HandedOut {
        value,
        start,
        count,
    } = handed;
    Ok(Plan::HandOut {
        value,
        start,
        count,
    })
}

/// Like `hand_out`, for bytes that may be missing.
///
/// # Errors
///
/// `BadArgument` if `handed` is `None`.
pub fn hand_out_some(handed: Option<HandedOut>) -> Planned
    ensures { result ≡ with_argument handed handed_out }
{
    match handed {
        Some(handed) => hand_out(handed),
        None => Err(Refusal::BadArgument),
    }
}

/// Like `hand_out`, for bytes that may be missing. If `handed` is `None`, the plan answers 0 and hands out nothing.
pub fn hand_out_or_zero(handed: Option<HandedOut>) -> Planned
    ensures { result ≡ handed_or_zero handed }
{
    match handed {
        Some(handed) => hand_out(handed),
        None => answer(0),
    }
}

/// The answer to a message that changes its document, but not the text.
#[derive(Clone, Copy)]
pub struct ChangePlan {
    /// The change, if the message makes one.
    pub change: Option<DocumentChange>,
    /// The value that the message answers.
    pub value: i64,
}

/// Returns the answer of a message that makes this change of the document: 0.
pub fn change_document(change: DocumentChange) -> Result<ChangePlan, Refusal>
    ensures { changed result ≡ change_document change }
{
    let change = Some(change);
    Ok(ChangePlan { change, value: 0 })
}

/// Returns the answer of a message that changes nothing: `value`.
pub fn change_nothing(value: i64) -> Result<ChangePlan, Refusal>
    ensures { changed result ≡ answer value }
{
    let change = None;
    Ok(ChangePlan { change, value })
}

/// Returns the plan of such a message, or refuses it.
pub fn plan_change(planned: Result<ChangePlan, Refusal>) -> Planned
    ensures { result ≡ changed planned }
{
    let ChangePlan { change, value } = planned?;
    match change {
        Some(change) => Ok(Plan::ChangeDocument { change, value }),
        None => answer(value),
    }
}

/// The answer to a message that changes its view alone.
#[derive(Clone, Copy)]
pub struct ViewPlan {
    /// The change, if the message makes one.
    pub change: Option<ViewChange>,
    /// The value that the message answers.
    pub value: i64,
}

/// Returns the answer of a message that makes this change of the view: 0.
pub fn change_view(change: ViewChange) -> Result<ViewPlan, Refusal>
    ensures { view_changed result ≡ change_view change }
{
    let change = Some(change);
    Ok(ViewPlan { change, value: 0 })
}

/// Like `change_view`, for a change that may be missing.
///
/// # Errors
///
/// `BadArgument` if `change` is `None`.
pub fn change_view_some(change: Option<ViewChange>) -> Result<ViewPlan, Refusal>
    ensures { view_changed result ≡ with_argument change change_view }
{
    match change {
        Some(change) => change_view(change),
        None => Err(Refusal::BadArgument),
    }
}

/// Returns the answer of a message that leaves its view as it is: `value`.
pub fn leave_view(value: i64) -> Result<ViewPlan, Refusal>
    ensures { view_changed result ≡ answer value }
{
    let change = None;
    Ok(ViewPlan { change, value })
}

/// Returns the plan of such a message, or refuses it.
pub fn plan_view_change(planned: Result<ViewPlan, Refusal>) -> Planned
    ensures { result ≡ view_changed planned }
{
    let ViewPlan { change, value } = planned?;
    match change {
        Some(change) => Ok(Plan::ChangeView { change, value }),
        None => answer(value),
    }
}

/// Returns the plan that makes this change of the session and answers 0.
pub fn change_session(change: SessionChange) -> Planned
    ensures { result ≡ change_session change }
{
    Ok(Plan::ChangeSession { change, value: 0 })
}
