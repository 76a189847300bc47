//! Performs the changes of undo or redo one by one, with their notes and the views that follow.

ghost use Rattle.std.specs.Prelude.{◌≡◌, ◌<◌, ◌^◌, ◌==◌, not, true, if◌then◌else◌, ℕ, List, [], length, Some, IsSomeAnd};
ghost use Rattle.ed_types.specs.Heard.{with_text};
ghost use Rattle.ed_model.specs.Steps.{Step};
ghost use Rattle.ed_model.specs.InverseLaws.{Fits};
ghost use Rattle.ed_model.specs.History.{Change, TextStep as Text};
ghost use Rattle.ed_model.specs.Notes.{heard, after_note};
ghost use Rattle.ed_model.specs.Numbers.{growth};
ghost use Rattle.ed_model.specs.Performing.{container_note};
ghost use Rattle.notify.specs.Gathered.{CanPut};
ghost use Rattle.document.specs.TextSteps.{step_in, IsStepOn};
ghost use Rattle.document.specs.Undoing.{outline_of};
ghost use Rattle.scene.specs.Scenes.{AreNamed, watchers};
ghost use Rattle.scene.specs.Hearing.{hearers};
ghost use Rattle.scene.specs.Telling.{with_notes};
ghost use Rattle.scene.specs.Undoing.{bits_of, all_bits as every_bit, every_kind, container_kinds, performed_kinds, outline_kinds, outline_movement};
ghost use Rattle.scene.specs.Turns.{change_at, bits_behind, CanPerform, CanTellAfter, IsPerformed, IsToldBefore, IsUnheard};

use crate::laws::document_is_small;
use crate::moving::follow_change;
use crate::step_notes::{tell_coming, tell_made};
use crate::telling::{Audience, NoteText, is_heard, tell};
use document::{ChangeOutline, Direction, Document, TextStep};
use ed_model::steps_keep_views_standing;
use ed_types::Note;
use ed_types::modification::{
    BEFORE_DELETE, BEFORE_INSERT, CONTAINER, DELETE_TEXT, INSERT_TEXT, LAST_STEP, MULTI_LINE,
    MULTI_STEP, PERFORMED_REDO, PERFORMED_UNDO,
};
use ed_types::notification::MODIFIED;
use ed_view::{View, moves_are_those_of_steps};
use id_table::IdTable;
use line_index::edits_of_steps;
use notify::{NoteList, blank};
use selection::Movement;

/// The change whose turn it is: that at `index`, in the order of performing.
#[derive(Clone, Copy)]
pub(crate) struct Turn {
    pub direction: Direction,
    pub index: usize,
    /// Whether there are several changes.
    pub several: bool,
    /// Whether this is the last change.
    pub last: bool,
}

// Returns the bit for undo or redo.
fn bit_of(direction: Direction) -> u32
    ensures { result ≡ bits_of direction }
{
    match direction {
        Direction::Undo => PERFORMED_UNDO,
        Direction::Redo => PERFORMED_REDO,
    }
}

// Returns all bits about its change that the note after a change may have.
fn all_bits(direction: Direction) -> u32
    ensures { result ≡ every_bit (bits_of direction) }
{
    bit_of(direction) | MULTI_STEP | LAST_STEP | MULTI_LINE
}

// Returns the bits of the note after the change.
fn bits_after(turn: Turn, lines_changed: bool) -> u32
    ensures { result ≡ bits_behind turn lines_changed }
{
    let several = if turn.several { MULTI_STEP } else { 0 };
    let lines = if lines_changed { MULTI_LINE } else { 0 };
    let last = if turn.last { LAST_STEP | lines } else { 0 };
    bit_of(turn.direction) | several | last
}

/// Returns each kind of note that the change may have.
pub(crate) fn kinds_of(direction: Direction, outline: ChangeOutline) -> u32
    ensures { result ≡ outline_kinds (bits_of direction) outline }
{
    let before = bit_of(direction);
    let after = all_bits(direction);
    match outline {
        ChangeOutline::Insert { .. } => (BEFORE_INSERT | before) | (INSERT_TEXT | after),
        ChangeOutline::Delete { .. } => (BEFORE_DELETE | before) | (DELETE_TEXT | after),
        ChangeOutline::Container { .. } => CONTAINER | after,
    }
}

/// Returns each kind of note that any change may have.
pub(crate) fn kinds_of_all(direction: Direction) -> u32
    ensures { result ≡ every_kind (bits_of direction) }
{
    BEFORE_INSERT | BEFORE_DELETE | INSERT_TEXT | DELETE_TEXT | CONTAINER | all_bits(direction)
}

// Returns how the change moves positions: a container's step moves none.
fn movement_of_change(outline: ChangeOutline) -> Movement
    ensures { result ≡ outline_movement outline }
{
    match outline {
        ChangeOutline::Insert { place, count } => Movement::Inserted { place, count },
        ChangeOutline::Delete { place, count } => Movement::Deleted { place, count },
        ChangeOutline::Container { .. } => Movement::Inserted { place: 0, count: 0 },
    }
}

// Returns the change, which is a step of the text. It is looked up again, so that its bytes are read only if a view
// hears it.
#[inline(never)]
fn step_at(document: &Document, turn: Turn) -> TextStep<'_>
    requires { (step : Step) × (change_at turn document.now.document.history ≡ Some (Text step)) }
    ensures { (step : Step) (text : List ℕ) → change_at turn document.now.document.history ≡ Some (Text step) → Fits step text → (step_in result text ≡ step) × IsStepOn result (length text) }
{
    match document.change_outline(turn.direction, turn.index) {
        ChangeOutline::Insert { place, .. } => TextStep::Insert {
            place,
            bytes: document.change_bytes(turn.direction, turn.index),
        },
        ChangeOutline::Delete { place, count } => TextStep::Delete { place, count },
        ChangeOutline::Container { .. } => unreachable!(),
    }
}

// Notifies the views that watch and hear the change, a step of the text, before it is made. At least one view hears it.
// Its bytes are shared for the note after it.
#[inline(never)]
fn tell_heard_change(document: &Document, views: &IdTable<View>, notes: &mut NoteList, turn: Turn)
    requires { (step : Step) × CanPerform turn document.now views.now notes.old (Text step) × (0 < hearers (performed_kinds (bits_of turn.direction) step) (watchers document.now.document views.now)) }
    ensures { (step : Step) → change_at turn document.now.document.history ≡ Some (Text step)
        → IsToldBefore (bits_of turn.direction) (watchers document.now.document views.now) true notes.old notes.new step }
{
    let who = bit_of(turn.direction);
    let step = step_at(document, turn);
    document_is_small(document);
    notes.share(document.change_bytes(turn.direction, turn.index), &[]);
    tell_coming(document, views, notes, true, who, step);
}

// Like `tell_heard_change`, if a view that watches hears the change, and returns whether one does. Asks no view if
// `quiet`.
fn tell_before_change(
    document: &Document,
    views: &IdTable<View>,
    notes: &mut NoteList,
    turn: Turn,
    outline: ChangeOutline,
    quiet: bool,
) -> bool
    requires can { (step : Step) × CanPerform turn document.now views.now notes.old (Text step) }
    requires outline { IsSomeAnd (change_at turn document.now.document.history) (λ change. outline ≡ outline_of change) }
    requires quiet { quiet ≡ true → IsUnheard turn document.now views.now }
    ensures { (step : Step) → change_at turn document.now.document.history ≡ Some (Text step)
        → IsToldBefore (bits_of turn.direction) (watchers document.now.document views.now) result notes.old notes.new step }
{
    if quiet {
        return false;
    }
    let kinds = kinds_of(turn.direction, outline);
    if !is_heard(document, views, kinds) {
        return false;
    }
    tell_heard_change(document, views, notes, turn);
    true
}

// Notifies the views that watch and hear the change, a step of the text, after it was made, if `hears` says that there
// is one. `old_lines` and `lines` are the numbers of lines before and after it. Its bytes are shared.
fn tell_after_change(
    document: &Document,
    views: &IdTable<View>,
    notes: &mut NoteList,
    turn: Turn,
    hears: bool,
    changed: bool,
    old_lines: usize,
    lines: usize,
)
    requires lines { (old_lines < 2 ^ 63) × (lines < 2 ^ 63) }
    requires named { AreNamed views.now.entries }
    requires can { (step : Step) × (text : List ℕ) × (change_at turn document.now.document.history ≡ Some (Text step))
        × CanTellAfter hears (bits_behind turn changed) (growth old_lines lines) step text (watchers document.now.document views.now) notes.old }
    ensures { (step : Step) → change_at turn document.now.document.history ≡ Some (Text step)
        → notes.new ≡ with_notes (heard (watchers document.now.document views.now) (after_note (bits_behind turn changed) (growth old_lines lines) step)) notes.old }
{
    if !hears {
        return;
    }
    let step = step_at(document, turn);
    let bits = bits_after(turn, changed);
    tell_made(document, views, notes, true, bits, old_lines, lines, step);
}

// Returns whether the number of lines has changed by now.
fn is_changed(before: bool, old_lines: usize, lines: usize) -> bool
    ensures { result ≡ (if before then true else not (old_lines == lines)) }
{
    before || old_lines != lines
}

// Performs the change, a step of the text: the views that watch and hear it are notified before and after it, and all
// that watch follow it. Returns whether the number of lines has changed by now.
fn perform_step(
    document: &mut Document,
    views: &mut IdTable<View>,
    notes: &mut NoteList,
    turn: Turn,
    outline: ChangeOutline,
    quiet: bool,
    lines_changed: bool,
) -> bool
    requires can { (step : Step) × CanPerform turn document.old views.old notes.old (Text step) }
    requires outline { IsSomeAnd (change_at turn document.old.document.history) (λ change. outline ≡ outline_of change) }
    requires quiet { quiet ≡ true → IsUnheard turn document.old views.old }
    ensures { (step : Step) → change_at turn document.old.document.history ≡ Some (Text step)
        → IsPerformed turn lines_changed result document.old views.old notes.old document.new views.new notes.new (Text step) }
{
    edits_of_steps();
    moves_are_those_of_steps();
    steps_keep_views_standing();
    let hears = tell_before_change(document, views, notes, turn, outline, quiet);
    let old_lines = document.line_count();
    let change = document.make_change(turn.direction, turn.index);
    let lines = document.line_count();
    let changed = is_changed(lines_changed, old_lines, lines);
    tell_after_change(
        document, views, notes, turn, hears, changed, old_lines, lines,
    );
    let movement = movement_of_change(outline);
    follow_change(document.views(), views, movement, change);
    changed
}

// Returns a note of a container's own step.
fn note_of_container(bits: u32, token: i64) -> Note
    ensures { with_text result [] ≡ container_note bits token }
{
    let mut note = blank(MODIFIED);
    note.kind = CONTAINER | bits;
    note.token = token;
    note
}

// Performs a container's own step: notifies the views that watch and hear it. Out of line, so that the hot path does
// not pay for the note.
#[inline(never)]
fn perform_container(
    document: &Document,
    views: &IdTable<View>,
    notes: &mut NoteList,
    turn: Turn,
    token: i64,
    lines_changed: bool,
)
    requires named { AreNamed views.now.entries }
    requires room { CanPut (hearers (container_kinds (bits_of turn.direction)) (watchers document.now.document views.now)) notes.old }
    ensures { notes.new ≡ with_notes (heard (watchers document.now.document views.now) (container_note (bits_behind turn lines_changed) token)) notes.old }
{
    let note = note_of_container(bits_after(turn, lines_changed), token);
    tell(
        document,
        views,
        notes,
        &note,
        Audience::Hearers,
        NoteText::Empty,
    );
}

/// Performs a change of this outline. `quiet` says that no view that watches is known to hear it. Returns whether the
/// number of lines has changed by now.
pub(crate) fn perform_change(
    document: &mut Document,
    views: &mut IdTable<View>,
    notes: &mut NoteList,
    turn: Turn,
    outline: ChangeOutline,
    quiet: bool,
    lines_changed: bool,
) -> bool
    requires can { (change : Change) × CanPerform turn document.old views.old notes.old change }
    requires outline { IsSomeAnd (change_at turn document.old.document.history) (λ change. outline ≡ outline_of change) }
    requires quiet { quiet ≡ true → IsUnheard turn document.old views.old }
    ensures { (change : Change) → change_at turn document.old.document.history ≡ Some change
        → IsPerformed turn lines_changed result document.old views.old notes.old document.new views.new notes.new change }
{
    if let ChangeOutline::Container { token } = outline {
        perform_container(document, views, notes, turn, token, lines_changed);
        return lines_changed;
    }
    perform_step(document, views, notes, turn, outline, quiet, lines_changed)
}
