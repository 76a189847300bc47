//! What steps need of a list of notes and of their document.

ghost use Rattle.std.specs.Prelude.{◌≡◌, ◌*◌, true, length};
ghost use Rattle.document.specs.Kept.{amount_sum};
ghost use Rattle.document.specs.TextSteps.{IsStepOn};
ghost use Rattle.scene.specs.Scenes.{watchers, AreNamed};
ghost use Rattle.scene.specs.Hearing.{hearers, bytes_shared};
ghost use Rattle.scene.specs.Needs.{IsCounted, note_room, bytes_for_step, leaving_notes, notes_for_step};

use crate::step_notes::{count_of, kind_after, kind_before};
use crate::steps::leaves_save_point;
use crate::telling::{count_hearers, count_watchers};
use document::{Document, DocumentNeed, TextStep};
use ed_types::modification::{PERFORMED_USER, START_ACTION};
use ed_view::View;
use id_table::IdTable;

/// What notes need: their number, and the bytes of the texts that they share.
#[derive(Clone, Copy)]
pub struct NoteRoom {
    /// The number of notes.
    pub notes: usize,
    /// The number of bytes of texts.
    pub bytes: usize,
}

impl NoteRoom {
    /// Returns no room.
    pub fn none() -> Self
        ensures { result ≡ note_room 0 0 }
    {
        NoteRoom { notes: 0, bytes: 0 }
    }

    /// Returns the sum of both. A sum beyond the greatest `usize` becomes that number, for which there is never room.
    pub fn plus(self, other: Self) -> Self
        ensures { result ≡ note_room (amount_sum self.notes other.notes) (amount_sum self.bytes other.bytes) }
    {
        NoteRoom {
            notes: self.notes.saturating_add(other.notes),
            bytes: self.bytes.saturating_add(other.bytes),
        }
    }
}

/// The memory that many steps need: those of undo or redo, or of a conversion of line ends. An amount beyond the
/// greatest `usize` becomes that number, for which there is never room.
#[derive(Clone, Copy)]
pub struct SceneNeed {
    /// Notes, and the bytes of the texts that they share.
    pub notes: NoteRoom,
    /// Room in the document.
    pub document: DocumentNeed,
}

impl SceneNeed {
    /// Returns whether no amount is the greatest `usize`, at which sums stop.
    #[inline]
    pub fn is_counted(&self) -> bool
        ensures counted { result ≡ true → IsCounted self.now }
        ensures all { IsCounted self.now → result ≡ true }
    {
        self.notes.notes < usize::MAX
            && self.notes.bytes < usize::MAX
            && self.document.text < usize::MAX
            && self.document.lines < usize::MAX
            && self.document.insertions < usize::MAX
            && self.document.steps < usize::MAX
            && self.document.bytes < usize::MAX
    }
}

/// Returns how many notes say that the next step of a message leaves the save point: none if the document is not at it.
pub fn leaving_need(document: &Document, views: &IdTable<View>) -> usize
    requires named { AreNamed views.now.entries }
    ensures { result ≡ leaving_notes document.now views.now }
{
    if leaves_save_point(document) {
        return count_watchers(document, views);
    }
    0
}

/// Returns the need of a step of the text whose notes before and after it have these kinds, and which inserts or
/// deletes this many bytes.
pub(crate) fn told_need(
    document: &Document,
    views: &IdTable<View>,
    kinds: u32,
    count: usize,
) -> NoteRoom
    requires named { AreNamed views.now.entries }
    ensures notes { result.notes ≡ 2 * hearers kinds (watchers document.now.document views.now) }
    ensures bytes { result.bytes ≡ bytes_shared kinds (watchers document.now.document views.now) count }
{
    let hearers = count_hearers(document, views, kinds);
    NoteRoom {
        notes: 2 * hearers,
        bytes: if hearers > 0 { count } else { 0 },
    }
}

/// Returns what a step of a message needs at most, without the notes that the save point is left. It needs nothing if
/// no view that watches hears it.
pub fn note_need(document: &Document, views: &IdTable<View>, step: TextStep) -> NoteRoom
    requires fits { IsStepOn step (length document.now.document.cells) }
    requires named { AreNamed views.now.entries }
    ensures notes { result.notes ≡ notes_for_step step.entry document.now views.now }
    ensures bytes { result.bytes ≡ bytes_for_step step.entry document.now views.now }
{
    let kinds = kind_before(PERFORMED_USER, step) | kind_after(PERFORMED_USER | START_ACTION, step);
    told_need(document, views, kinds, count_of(step))
}
