//! Makes a step of a document's text, with its notes and the views that follow.

ghost use Rattle.std.specs.Prelude.{◌≡◌, ◌+◌, ◌++◌, ◌&&◌, true, false, length};
ghost use Rattle.ed_model.specs.Steps.{step_bytes};
ghost use Rattle.ed_model.specs.History.{at_save_point};
ghost use Rattle.ed_model.specs.Notes.{performed_user};
ghost use Rattle.notify.specs.Gathered.{CanPut, CanShare, is_full};
ghost use Rattle.document.specs.Kept.{HasRoom, HasTextRoom};
ghost use Rattle.document.specs.TextSteps.{IsStepOn, LeavesRoom, LeavesTextRoom, need_on, step_on};
ghost use Rattle.scene.specs.Scenes.{watchers, AreNamed, IsWatched, RoomsStay, kept_scene};
ghost use Rattle.scene.specs.Hearing.{left_note, user_bits as bits_of_user};
ghost use Rattle.scene.specs.Telling.{CanHold, with_notes};
ghost use Rattle.scene.specs.StepNotes.{IsSmallStep, notes_before};
ghost use Rattle.scene.specs.Steps.{heard_bytes, made_bytes, scene_heard, scene_made, step_hearers};

use crate::moving::follow_change;
use crate::step_notes::{
    kind_after, kind_before, movement_of, share_bytes, tell_coming, tell_made,
};
use crate::telling::{Audience, NoteText, is_heard, tell};
use document::{Document, TextStep};
use ed_model::steps_keep_views_standing;
use ed_types::modification::{PERFORMED_USER, START_ACTION};
use ed_types::notification::SAVE_POINT_LEFT;
use ed_view::{View, moves_are_those_of_steps};
use id_table::IdTable;
use line_index::edits_of_steps;
use notify::{NoteList, blank};

/// The bits of a step's notes that say who makes the step, and as which of several.
#[derive(Clone, Copy)]
pub struct StepBits {
    /// The bits of the notes before it.
    pub before: u32,
    /// The bits of the notes after it.
    pub after: u32,
}

// Shares the step's bytes if a view that watches hears it, and returns whether one does. If no more notes fit in, no
// view listens, and none is asked.
fn share_if_heard(
    document: &mut Document,
    views: &IdTable<View>,
    notes: &mut NoteList,
    bits: StepBits,
    step: TextStep,
) -> bool
    requires fits { IsStepOn step (length document.old.document.cells) }
    requires named { AreNamed views.now.entries }
    requires full { is_full notes.old ≡ true → step_hearers bits step document.old views.now ≡ 0 }
    requires texts { CanShare (heard_bytes bits step document.old views.now) notes.old }
    ensures document { document.new ≡ document.old }
    ensures notes { notes.new.notes ≡ notes.old.notes }
    ensures capacity { notes.new.capacity ≡ notes.old.capacity }
    ensures held { notes.new.held ≡ notes.old.held + heard_bytes bits step.entry document.old views.now }
    ensures unheard { result ≡ false → step_hearers bits step.entry document.old views.now ≡ 0 }
    ensures shared { result ≡ true → notes.new.shared ≡ step_bytes (step_on document.old step.entry) }
{
    if notes.is_full() {
        return false;
    }
    let kinds = kind_before(bits.before, step) | kind_after(bits.after, step);
    let hears = is_heard(document, views, kinds);
    if hears {
        share_bytes(document, notes, step);
    }
    hears
}

// Tells each view that watches that the save point is left. Out of line, so that the hot path does not prepare the
// note.
#[inline(never)]
fn put_left(document: &Document, views: &IdTable<View>, notes: &mut NoteList)
    requires named { AreNamed views.now.entries }
    requires room { CanPut (length (left_note true (watchers document.now.document views.now))) notes.old }
    ensures { notes.new ≡ with_notes (left_note true (watchers document.now.document views.now)) notes.old }
{
    let note = blank(SAVE_POINT_LEFT);
    tell(
        document,
        views,
        notes,
        &note,
        Audience::Everyone,
        NoteText::Empty,
    );
}

// Tells each view that watches that the save point is left, if `is_left`.
fn tell_left(document: &Document, views: &IdTable<View>, notes: &mut NoteList, is_left: bool)
    requires named { AreNamed views.now.entries }
    requires room { CanPut (length (left_note is_left (watchers document.now.document views.now))) notes.old }
    ensures { notes.new ≡ with_notes (left_note is_left (watchers document.now.document views.now)) notes.old }
{
    if is_left {
        put_left(document, views, notes);
    }
}

// Notifies the views before a step is made, and if the save point is left. Returns whether a view that watches hears
// the step, whose bytes are then shared for the note after it.
fn tell_before(
    document: &mut Document,
    views: &IdTable<View>,
    notes: &mut NoteList,
    bits: StepBits,
    is_left: bool,
    step: TextStep,
) -> bool
    requires fits { IsStepOn step (length document.old.document.cells) }
    requires small { IsSmallStep step }
    requires named { AreNamed views.now.entries }
    requires notes { CanPut (length (notes_before bits.before step document.old views.now) + length (left_note is_left (watchers document.old.document views.now))) notes.old }
    requires full { is_full notes.old ≡ true → step_hearers bits step document.old views.now ≡ 0 }
    requires texts { CanShare (heard_bytes bits step document.old views.now) notes.old }
    ensures document { document.new ≡ document.old }
    ensures notes { notes.new.notes ≡ notes.old.notes ++ notes_before bits.before step.entry document.old views.now ++ left_note is_left (watchers document.old.document views.now) }
    ensures capacity { notes.new.capacity ≡ notes.old.capacity }
    ensures held { notes.new.held ≡ notes.old.held + heard_bytes bits step.entry document.old views.now }
    ensures unheard { result ≡ false → step_hearers bits step.entry document.old views.now ≡ 0 }
    ensures shared { result ≡ true → notes.new.shared ≡ step_bytes (step_on document.old step.entry) }
{
    let hears = share_if_heard(document, views, notes, bits, step);
    tell_coming(document, views, notes, hears, bits.before, step);
    tell_left(document, views, notes, is_left);
    hears
}

/// Makes a step of the document's text, and does not change the history.
///
/// The views that watch and hear the step are notified before and after it, with these bits. In between, if the save
/// point `is_left`, each view is told so. All views that watch follow the step.
pub(crate) fn step_heard(
    document: &mut Document,
    views: &mut IdTable<View>,
    notes: &mut NoteList,
    bits: StepBits,
    is_left: bool,
    step: TextStep,
)
    requires fits { IsStepOn step (length document.old.document.cells) }
    requires room { HasTextRoom (need_on document.old step) document.old }
    requires watched { IsWatched document.old.document views.old }
    requires notes { let held = notes.old.held + heard_bytes bits step document.old views.old in CanHold notes.old (scene_heard bits is_left step document.old views.old notes.old) held }
    ensures scene { kept_scene document.new views.new notes.new ≡ scene_heard bits is_left step.entry document.old views.old notes.old }
    ensures watched { IsWatched document.new.document views.new }
    ensures room { LeavesTextRoom (step_on document.old step.entry) document.old document.new }
    ensures rooms { RoomsStay document.old document.new views.old views.new notes.old notes.new }
    ensures held { notes.new.held ≡ notes.old.held + heard_bytes bits step.entry document.old views.old }
{
    edits_of_steps();
    moves_are_those_of_steps();
    steps_keep_views_standing();
    let hears = tell_before(document, views, notes, bits, is_left, step);
    let old_lines = document.line_count();
    let change = document.step(step);
    let lines = document.line_count();
    tell_made(
        document, views, notes, hears, bits.after, old_lines, lines, step,
    );
    follow_change(document.views(), views, movement_of(step), change);
}

// Returns the bits of a step of a message.
fn user_bits(begins: bool) -> StepBits
    ensures before { result.before ≡ performed_user }
    ensures after { result.after ≡ bits_of_user begins }
{
    StepBits {
        before: PERFORMED_USER,
        after: if begins {
            PERFORMED_USER | START_ACTION
        } else {
            PERFORMED_USER
        },
    }
}

/// Returns whether appending the next step to the history leaves the save point: the history collects steps, and the
/// document is at its save point.
pub fn leaves_save_point(document: &Document) -> bool
    ensures { result ≡ (document.now.document.history.collecting && at_save_point document.now.document.history) }
{
    let history = document.history();
    history.is_collecting() && history.is_at_save_point()
}

/// Makes a step of a message, and appends it to the history. `later` says that it is a later step of its message.
///
/// The views that watch and hear the step are notified before and after it. In between each view is told if the save
/// point is left. All views that watch follow the step.
pub fn make_step(
    document: &mut Document,
    views: &mut IdTable<View>,
    notes: &mut NoteList,
    later: bool,
    step: TextStep,
)
    requires fits { IsStepOn step (length document.old.document.cells) }
    requires room { HasRoom (need_on document.old step) document.old }
    requires watched { IsWatched document.old.document views.old }
    requires notes { let held = notes.old.held + made_bytes later step document.old views.old in CanHold notes.old (scene_made later step document.old views.old notes.old) held }
    ensures scene { kept_scene document.new views.new notes.new ≡ scene_made later step.entry document.old views.old notes.old }
    ensures watched { IsWatched document.new.document views.new }
    ensures room { LeavesRoom (step_on document.old step.entry) document.old document.new }
    ensures rooms { RoomsStay document.old document.new views.old views.new notes.old notes.new }
    ensures held { notes.new.held ≡ notes.old.held + made_bytes later step.entry document.old views.old }
{
    let is_left = leaves_save_point(document);
    let begins = document.append(later, step);
    step_heard(document, views, notes, user_bits(begins), is_left, step);
}
