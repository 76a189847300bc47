//! Changes of a view alone, which are made without a plan.

ghost use Rattle.std.specs.Prelude.{◌≡◌, ◌&&◌, Ok, Some, IfSome, IfNone};
ghost use Rattle.ed_types.specs.Messages.{kind_of, marks_of};
ghost use Rattle.ed_model.specs.Performing.{quiet};
ghost use Rattle.ed_model.specs.Table.{table};

use crate::changing::perform_view_change;
use crate::find::find;
use crate::perform::Task;
use crate::session::Session;
use ed_model::plans_are_fit;
use ed_types::Kind;
use message_plans::view_change_of;
use message_requests::{Request, SentMessage};

/// Returns whether the view of a message records it. Inlined: as a call, a message takes 10 instructions more.
#[inline(always)]
pub(crate) fn is_recorded(kind: Kind, request: &Request) -> bool
    ensures { result ≡ (request.now.view.records && (marks_of kind).r) }
{
    request.view.records() && kind.columns().r
}

/// Makes this change of `view`, unless it is refused or recorded, and returns the value: 0, or what a search finds. With `None`, nothing has
/// changed. Out of line, with a stack frame of its own. When it was tried, SETTARGETRANGE took 399 instructions by a plan and 317 so, a near search
/// 1,021 and 966.
#[inline(never)]
pub(crate) fn set(
    session: &mut Session,
    view: u32,
    kind: Kind,
    message: &SentMessage,
) -> Option<i64>
    requires kind { Some kind ≡ kind_of message.now.number }
    ensures done { IfSome result (λ value. table session.old view message.now ≡ Ok (session.new, quiet value)) }
    ensures same { IfNone result (session.new ≡ session.old) }
{
    // States that a plan's numbers are in range.
    plans_are_fit();
    let Ok((kind, request)) = find(session, view, Some(kind), message) else {
        return None;
    };
    let task = Task {
        view,
        document: request.document.id(),
        message,
        is_recorded: is_recorded(kind, &request),
    };
    if task.is_recorded {
        return None;
    }
    let plan = view_change_of(kind, &request)?;
    let Some(change) = plan.change else {
        return Some(plan.value);
    };
    match perform_view_change(session, &task, change) {
        Ok(()) => Some(plan.value),
        Err(_) => None,
    }
}
