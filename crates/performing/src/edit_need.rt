//! The memory that a replacement of bytes needs, counted before any is allocated.

ghost use Rattle.std.specs.Prelude.{◌≡◌, ◌≤◌, ◌+◌, [], ◌∷◌, length};
ghost use Rattle.document.specs.TextSteps.{IsStepOn, step_on};
ghost use Rattle.scene.specs.Scenes.{scene_in, AreNamed};
ghost use Rattle.performing.specs.Edits.{edit_need, replacement_in};

use document::{Document, DocumentNeed, TextStep};
use ed_view::View;
use id_table::IdTable;
use scene::{NoteRoom, SceneNeed, leaving_need, note_need};

/// Returns what an edit of this one step needs.
fn step_need(document: &Document, views: &IdTable<View>, step: TextStep) -> SceneNeed
    requires fits { IsStepOn step (length document.now.document.cells) }
    requires named { AreNamed views.now.entries }
    ensures { result ≡ edit_need (step_on document.now step.entry ∷ []) (scene_in document.now.document views.now.entries []) }
{
    let leaving = NoteRoom {
        notes: leaving_need(document, views),
        bytes: 0,
    };
    SceneNeed {
        notes: note_need(document, views, step).plus(leaving),
        // `plus` caps each amount, as `edit_need` does.
        document: document.step_need(step).plus(DocumentNeed::none()),
    }
}

/// Returns what the steps need that replace the `count` bytes from `start` on by `bytes`. Inserted bytes take the place
/// of deleted ones.
pub(crate) fn replacement_need(
    document: &Document,
    views: &IdTable<View>,
    start: usize,
    count: usize,
    bytes: &[u8],
) -> SceneNeed
    requires range { start + count ≤ length document.now.document.cells }
    requires named { AreNamed views.now.entries }
    ensures { let steps = replacement_in start count bytes.now document.now in
        result ≡ edit_need steps (scene_in document.now.document views.now.entries []) }
{
    let insertion = TextStep::Insert {
        place: start,
        bytes,
    };
    if count == 0 {
        if bytes.is_empty() {
            return SceneNeed {
                notes: NoteRoom::none(),
                document: DocumentNeed::none(),
            };
        }
        return step_need(document, views, insertion);
    }
    let deletion = TextStep::Delete {
        place: start,
        count,
    };
    let need = step_need(document, views, deletion);
    if bytes.is_empty() {
        return need;
    }
    let mut room = document.step_need(insertion);
    // The deletion frees as many bytes.
    room.text = room.text.saturating_sub(count);
    SceneNeed {
        notes: need.notes.plus(note_need(document, views, insertion)),
        document: need.document.plus(room),
    }
}
