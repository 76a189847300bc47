//! The notes of a step.

ghost use Rattle.std.specs.Prelude.{◌≡◌, ◌+◌, ◌<◌, ◌^◌, true, false, [], List, ℕ, length};
ghost use Rattle.ed_types.specs.Heard.{with_text};
ghost use Rattle.ed_model.specs.Steps.{step_bytes};
ghost use Rattle.ed_model.specs.Notes.{before_note as note_before, after_note as note_after};
ghost use Rattle.ed_model.specs.Numbers.{growth};
ghost use Rattle.selection.specs.Positions.{movement_of as movement};
ghost use Rattle.document.specs.TextSteps.{step_in, IsStepOn, step_on};
ghost use Rattle.notify.specs.Gathered.{CanPut, CanShare};
ghost use Rattle.scene.specs.Scenes.{AreNamed};
ghost use Rattle.scene.specs.Hearing.{before_kind, after_kind};
ghost use Rattle.scene.specs.Telling.{with_notes};
ghost use Rattle.scene.specs.StepNotes.{place_in, count_in, IsSmallStep, note_text_before, text_before, CanTellStep, IsRangeNote, IsStepTold, notes_before};

use crate::telling::{Audience, NoteText, tell};
use document::{Document, TextStep};
use ed_types::Note;
use ed_types::modification::{BEFORE_DELETE, BEFORE_INSERT, DELETE_TEXT, INSERT_TEXT};
use ed_types::notification::MODIFIED;
use ed_view::View;
use id_table::IdTable;
use notify::{NoteList, blank};
use selection::Movement;

// Returns the place of the step, in bytes from 0.
fn place_of(step: TextStep) -> usize
    ensures { result ≡ place_in step.entry }
{
    match step {
        TextStep::Insert { place, .. } => place,
        TextStep::Delete { place, .. } => place,
    }
}

/// Returns how many bytes the step inserts or deletes.
pub(crate) fn count_of(step: TextStep) -> usize
    ensures { result ≡ count_in step.entry }
{
    match step {
        TextStep::Insert { bytes, .. } => bytes.len(),
        TextStep::Delete { count, .. } => count,
    }
}

/// Returns how the step moves positions.
pub(crate) fn movement_of(step: TextStep) -> Movement
    ensures { (text : List ℕ) → IsStepOn step.entry (length text) → result ≡ movement (step_in step.entry text) }
{
    match step {
        TextStep::Insert { place, bytes } => Movement::Inserted {
            place,
            count: bytes.len(),
        },
        TextStep::Delete { place, count } => Movement::Deleted { place, count },
    }
}

/// Returns the kind of the notes before the step.
pub(crate) fn kind_before(bits: u32, step: TextStep) -> u32
    ensures { (text : List ℕ) → result ≡ before_kind bits (step_in step.entry text) }
{
    match step {
        TextStep::Insert { .. } => BEFORE_INSERT | bits,
        TextStep::Delete { .. } => BEFORE_DELETE | bits,
    }
}

/// Returns the kind of the notes after the step.
pub(crate) fn kind_after(bits: u32, step: TextStep) -> u32
    ensures { (text : List ℕ) → result ≡ after_kind bits (step_in step.entry text) }
{
    match step {
        TextStep::Insert { .. } => INSERT_TEXT | bits,
        TextStep::Delete { .. } => DELETE_TEXT | bits,
    }
}

// Returns a note of a change of `count` bytes.
fn range_note(kind: u32, place: usize, count: usize) -> Note
    requires { (place < 2 ^ 63) × (count < 2 ^ 63) }
    ensures { IsRangeNote kind place count result }
{
    let mut note = blank(MODIFIED);
    note.kind = kind;
    note.position = place as i64;
    note.length = count as i64;
    note
}

// Returns the note before the step.
fn before_note(bits: u32, step: TextStep) -> Note
    requires { IsSmallStep step }
    ensures { (text : List ℕ) → IsStepOn step.entry (length text) → with_text result (text_before (step_in step.entry text)) ≡ note_before bits (step_in step.entry text) }
{
    range_note(kind_before(bits, step), place_of(step), count_of(step))
}

// Returns which text that note has: none for a deletion.
fn text_of_before(step: TextStep) -> NoteText
    ensures { result ≡ note_text_before step.entry }
{
    match step {
        TextStep::Insert { .. } => NoteText::Shared,
        TextStep::Delete { .. } => NoteText::Empty,
    }
}

// Returns the note after the step. `old_lines` and `lines` are the numbers of lines before and after it.
fn after_note(bits: u32, old_lines: usize, lines: usize, step: TextStep) -> Note
    requires small { IsSmallStep step }
    requires lines { (old_lines < 2 ^ 63) × (lines < 2 ^ 63) }
    ensures { (text : List ℕ) → IsStepOn step.entry (length text) → with_text result (step_bytes (step_in step.entry text)) ≡ note_after bits (growth old_lines lines) (step_in step.entry text) }
{
    let mut note = range_note(kind_after(bits, step), place_of(step), count_of(step));
    note.lines = lines as i64 - old_lines as i64;
    note
}

/// Shares the bytes that the step inserts or deletes among the next notes. They must fit in.
pub(crate) fn share_bytes(document: &mut Document, notes: &mut NoteList, step: TextStep)
    requires fits { IsStepOn step (length document.old.document.cells) }
    requires room { CanShare (length (step_bytes (step_on document.old step))) notes.old }
    ensures document { document.new ≡ document.old }
    ensures notes { let bytes = step_bytes (step_on document.old step.entry) in notes.new ≡ record notes.old { shared = bytes; held = notes.old.held + length bytes } }
{
    match step {
        TextStep::Insert { bytes, .. } => notes.share(bytes, &[]),
        TextStep::Delete { place, count } => notes.share(document.lend(place, count), &[]),
    }
}

// Notifies the views before a step is made. Its bytes are shared. Out of line, so that the hot path does not prepare a
// note.
#[inline(never)]
fn put_coming(
    document: &Document,
    views: &IdTable<View>,
    notes: &mut NoteList,
    bits: u32,
    step: TextStep,
)
    requires fits { IsStepOn step (length document.now.document.cells) }
    requires small { IsSmallStep step }
    requires named { AreNamed views.now.entries }
    requires shared { notes.old.shared ≡ step_bytes (step_on document.now step) }
    requires room { CanPut (length (notes_before bits step document.now views.now)) notes.old }
    ensures { notes.new ≡ with_notes (notes_before bits step.entry document.now views.now) notes.old }
{
    let note = before_note(bits, step);
    let text = text_of_before(step);
    tell(document, views, notes, &note, Audience::Hearers, text);
}

/// Notifies the views that watch before a step is made, if `hears` says that one hears it. Its bytes are shared.
pub(crate) fn tell_coming(
    document: &Document,
    views: &IdTable<View>,
    notes: &mut NoteList,
    hears: bool,
    bits: u32,
    step: TextStep,
)
    requires fits { IsStepOn step (length document.now.document.cells) }
    requires small { IsSmallStep step }
    requires named { AreNamed views.now.entries }
    requires unheard { hears ≡ false → notes_before bits step document.now views.now ≡ [] }
    requires shared { hears ≡ true → notes.old.shared ≡ step_bytes (step_on document.now step) }
    requires room { CanPut (length (notes_before bits step document.now views.now)) notes.old }
    ensures { notes.new ≡ with_notes (notes_before bits step.entry document.now views.now) notes.old }
{
    if hears {
        put_coming(document, views, notes, bits, step);
    }
}

// Notifies the views after a step was made. `old_lines` and `lines` are the numbers of lines before and after it. Its
// bytes are shared. Out of line, so that the hot path does not prepare a note.
#[inline(never)]
fn put_made(
    document: &Document,
    views: &IdTable<View>,
    notes: &mut NoteList,
    bits: u32,
    old_lines: usize,
    lines: usize,
    step: TextStep,
)
    requires small { IsSmallStep step }
    requires lines { (old_lines < 2 ^ 63) × (lines < 2 ^ 63) }
    requires named { AreNamed views.now.entries }
    requires can { CanTellStep true bits (growth old_lines lines) step document.now views.now notes.old }
    ensures told { IsStepTold true bits (growth old_lines lines) step.entry document.now views.now notes.old notes.new }
    ensures rest { notes.new ≡ record notes.old { notes = notes.new.notes } }
{
    let note = after_note(bits, old_lines, lines, step);
    tell(
        document,
        views,
        notes,
        &note,
        Audience::Hearers,
        NoteText::Shared,
    );
}

/// Notifies the views that watch after a step was made, if `hears` says that one hears it. `old_lines` and `lines` are
/// the numbers of lines before and after it. Its bytes are shared.
pub(crate) fn tell_made(
    document: &Document,
    views: &IdTable<View>,
    notes: &mut NoteList,
    hears: bool,
    bits: u32,
    old_lines: usize,
    lines: usize,
    step: TextStep,
)
    requires small { IsSmallStep step }
    requires lines { (old_lines < 2 ^ 63) × (lines < 2 ^ 63) }
    requires named { AreNamed views.now.entries }
    requires can { CanTellStep hears bits (growth old_lines lines) step document.now views.now notes.old }
    ensures told { IsStepTold hears bits (growth old_lines lines) step.entry document.now views.now notes.old notes.new }
    ensures rest { notes.new ≡ record notes.old { notes = notes.new.notes } }
{
    if hears {
        put_made(document, views, notes, bits, old_lines, lines, step);
    }
}
