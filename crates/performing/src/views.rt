//! Changes of a view: its settings, its selection, and which lines it shows.

ghost use Rattle.std.specs.Prelude.{◌≡◌, [], pos, IsOk, OnOk, OnErr};
ghost use Rattle.ed_model.specs.declared.plan.Plan.TheVariants as plan;
ghost use Rattle.message_requests.specs.Requested.{session_in};
ghost use Rattle.performing.specs.Kept.{IsKept};
ghost use Rattle.performing.specs.Asked.{CanChangeView, performed_at};
ghost use Rattle.performing.specs.Folding.{HasFoldRoomAt, OnlyViewChanges};

use ed_model::ViewChange;
use ed_view::{fit_changes_are_within, is_setting};
use message_requests::SessionState;
use std::alloc::AllocError;

/// Makes a change of `view` by the fold levels of its document, with room that it makes first for lines that it hides
/// or contracts.
fn change_by_levels(
    state: &mut SessionState,
    document: u32,
    view: u32,
    change: ViewChange,
) -> Result<(), AllocError>
    requires kept { IsKept state.old }
    requires can { CanChangeView (session_in state.old) document view change }
    ensures changed { OnOk result (session_in state.new ≡ (performed_at (session_in state.old) view [] (plan.ChangeView change (pos 0))).0) }
    ensures same { OnErr result (session_in state.new ≡ session_in state.old) }
    ensures free { HasFoldRoomAt state.old.views.entries view change → IsOk result }
    ensures stays { OnlyViewChanges view change state.old state.new }
{
    // States that the lines that a fit change names exist.
    fit_changes_are_within();
    let SessionState {
        documents,
        views,
        ..
    } = state;
    let document = documents.at(document);
    let view = views.at_mut(view);
    let need = view.fold_need(change);
    view.reserve_folding(need)?;
    view.change(&document.rows().fold_levels(), change);
    Ok(())
}

/// Makes a change of `view`, which is attached to `document`: of a setting, of the selection, or of the lines that it
/// shows. Allocates only for lines that it hides or contracts, if they do not fit yet. All else in the session stays.
///
/// # Errors
///
/// `AllocError` if an allocation fails. The session is then as it was, but that more may fit into the view.
pub fn change_view(
    state: &mut SessionState,
    document: u32,
    view: u32,
    change: ViewChange,
) -> Result<(), AllocError>
    requires kept { IsKept state.old }
    requires can { CanChangeView (session_in state.old) document view change }
    ensures changed { OnOk result (session_in state.new ≡ (performed_at (session_in state.old) view [] (plan.ChangeView change (pos 0))).0) }
    ensures same { OnErr result (session_in state.new ≡ session_in state.old) }
    ensures free { HasFoldRoomAt state.old.views.entries view change → IsOk result }
    ensures stays { OnlyViewChanges view change state.old state.new }
{
    if !is_setting(change) {
        return change_by_levels(state, document, view, change);
    }
    let view = state.views.at_mut(view);
    view.set(change);
    Ok(())
}
