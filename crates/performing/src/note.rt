//! What there is to tell of a change.

ghost use Rattle.std.specs.Prelude.{◌≡◌, ◌<◌, ◌^◌, ℕ, List, bit_or, IfSome, if◌then◌else◌};
ghost use Rattle.ed_model.specs.Changes.{range_notes};
ghost use Rattle.ed_model.specs.Notes.{performed_user};
ghost use Rattle.ed_model.specs.Session.{Document as ModelDocument, View as ModelView};
ghost use Rattle.performing.specs.declared.note.ChangeNote.TheVariants.{Nothing};
ghost use Rattle.performing.specs.Notes.{IsFitNote, notes_of};

/// What there is to tell of a change that was made. The makers of changes know no views: `tell` notifies those.
#[derive(Clone, Copy)]
pub(crate) enum ChangeNote {
    Nothing,
    SavePointReached,
    SavePointLeft,
    /// The markers of a line changed.
    Markers {
        line: usize,
    },
    /// The markers of several lines changed.
    AllMarkers,
    /// The fold level of a line changed.
    Level {
        line: usize,
        level: u32,
        before: u32,
    },
    /// The state of a line changed.
    State {
        line: usize,
    },
    /// The styles of `count` bytes from `start` on changed, or an indicator's values there: `kind` says which.
    Range {
        kind: u32,
        start: usize,
        count: usize,
    },
    /// The sending view is to style the text up to `end`.
    StyleNeeded {
        end: usize,
    },
}

/// Returns `note` if something changed, and otherwise that there is nothing to tell.
pub(crate) fn note_if(changed: bool, note: ChangeNote) -> ChangeNote
    ensures { result ≡ (if changed then note else Nothing) }
{
    if changed { note } else { ChangeNote::Nothing }
}

/// Returns the note of the changed range, as its start and its length, if there is one.
pub(crate) fn range_note(kind: u32, changed: Option<(usize, usize)>) -> ChangeNote
    requires { IfSome changed (λ range. (range.0 < 2 ^ 63) × (range.1 < 2 ^ 63)) }
    ensures told { (bits : ℕ) (v : ModelView) (views : List ModelView) (d : ModelDocument) → kind ≡ bit_or bits performed_user → range_notes bits changed views ≡ notes_of v views d result }
    ensures fits { (d : ModelDocument) → IsFitNote d result }
{
    match changed {
        Some((start, count)) => ChangeNote::Range { kind, start, count },
        None => ChangeNote::Nothing,
    }
}
