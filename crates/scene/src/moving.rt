//! The views that watch a document follow a step.

ghost use Rattle.line_index.specs.StepEdits.{edits_of};
ghost use Rattle.scene.specs.Following.{CanAllFollow, HaveFollowed};

use ed_view::View;
use id_table::IdTable;
use line_index::{LineChange, LineEdit};
use selection::Movement;

/// Moves the views with these ids, one after the other, as a step does. `edits` are its changes of the lines.
pub(crate) fn follow(ids: &[u32], views: &mut IdTable<View>, movement: Movement, edits: &[LineEdit])
    requires { CanAllFollow movement edits.now ids.now views.old }
    ensures { HaveFollowed movement edits.now ids.now views.old views.new }
{
    for id in ids {
        if let Some(view) = views.get_mut(*id) {
            view.moved(movement, edits);
        }
    }
}

// Moves the views with these ids as a step does that adds or removes lines. Out of line, so that the hot path does not
// compute edits.
#[inline(never)]
fn follow_edits(ids: &[u32], views: &mut IdTable<View>, movement: Movement, change: LineChange)
    requires can { CanAllFollow movement (edits_of change) ids.now views.old }
    ensures { HaveFollowed movement (edits_of change) ids.now views.old views.new }
{
    let edits = change.edits();
    follow(ids, views, movement, edits.as_slice());
}

/// Moves the views with these ids, one after the other, as a step does that changed the lines in this way. A step that
/// neither adds nor removes lines needs no edits.
#[inline(always)]
pub(crate) fn follow_change(
    ids: &[u32],
    views: &mut IdTable<View>,
    movement: Movement,
    change: LineChange,
)
    requires can { CanAllFollow movement (edits_of change) ids.now views.old }
    ensures { HaveFollowed movement (edits_of change) ids.now views.old views.new }
{
    if change.is_quiet() {
        follow(ids, views, movement, &[]);
        return;
    }
    follow_edits(ids, views, movement, change);
}
