//! Notifies views: appends a note for each view in the audience.

ghost use Rattle.std.specs.Prelude.{◌≡◌, ◌<◌, ◌^◌, List, ℕ, length, nat_lt};
ghost use Rattle.ed_types.specs.Heard.{with_text};
ghost use Rattle.ed_model.specs.Notes.{modify_attempt, blank as blank_note, told};
ghost use Rattle.notify.specs.Gathered.{CanPut, with_note};
ghost use Rattle.scene.specs.Scenes.{watchers, AreNamed};
ghost use Rattle.scene.specs.Hearing.{audience_of, belongs, with_note_text, hearers, masks_of};
ghost use Rattle.scene.specs.Telling.{with_notes};

use document::Document;
use ed_types::Note;
use ed_types::notification::MODIFY_ATTEMPT;
use ed_view::View;
use id_table::IdTable;
use notify::{NoteList, blank};

/// The audience of a note, among the views that watch a document.
#[derive(Clone, Copy)]
pub enum Audience {
    /// All of them, whatever their masks are.
    Everyone,
    /// The views whose mask has a bit in common with the kind of the note.
    Hearers,
}

/// The text of a note.
#[derive(Clone, Copy)]
pub enum NoteText {
    /// No text.
    Empty,
    /// The text shared in the list of notes.
    Shared,
}

// Returns the note for this view. Its range of the text is ignored.
fn note_for(note: &Note, view: u32) -> Note
    ensures { (text : List ℕ) → with_text result text ≡ record (with_text note.entry.now text) { view = view } }
{
    Note {
        view,
        text: 0..0,
        ..*note
    }
}

// Returns whether a view is in the audience.
fn is_told(view: &View, audience: Audience, kind: u32) -> bool
    ensures { result ≡ belongs audience kind view.now.view }
{
    match audience {
        Audience::Everyone => true,
        Audience::Hearers => view.mask() & kind != 0,
    }
}

// Appends a note with its text.
fn put(notes: &mut NoteList, note: Note, text: NoteText)
    requires { CanPut 1 notes.old }
    ensures { notes.new ≡ with_note (with_note_text text note notes.old.shared) notes.old }
{
    match text {
        NoteText::Empty => notes.put_bare(note),
        NoteText::Shared => notes.put_again(note),
    }
}

/// Appends a note for each view that watches the document and is in the audience, in the order in which the views were
/// attached. As many notes must fit in. If no more notes fit in, no view is in the audience, and none is asked.
pub fn tell(
    document: &Document,
    views: &IdTable<View>,
    notes: &mut NoteList,
    note: &Note,
    audience: Audience,
    text: NoteText,
)
    requires named { AreNamed views.now.entries }
    requires room { CanPut (length (audience_of audience note.now.kind (watchers document.now.document views.now))) notes.old }
    ensures { notes.new ≡ with_notes (told (audience_of audience note.entry.now.kind (watchers document.now.document views.now)) (with_note_text text note.entry.now notes.old.shared)) notes.old }
{
    if notes.is_full() {
        return;
    }
    for id in document.views() {
        if let Some(view) = views.get(*id) {
            if is_told(view, audience, note.kind) {
                put(notes, note_for(note, view.id()), text);
            }
        }
    }
}

/// Tells each view that watches the document that a message tried to change its text, which is read-only
/// (`SCN_MODIFYATTEMPTRO`). As many notes must fit in.
pub fn attempt(document: &Document, views: &IdTable<View>, notes: &mut NoteList)
    requires named { AreNamed views.now.entries }
    requires room { CanPut (length (watchers document.now.document views.now)) notes.old }
    ensures { notes.new ≡ with_notes (told (watchers document.now.document views.now) (blank_note modify_attempt)) notes.old }
{
    let note = blank(MODIFY_ATTEMPT);
    tell(
        document,
        views,
        notes,
        &note,
        Audience::Everyone,
        NoteText::Empty,
    );
}

/// The views that watch a document, in sum.
#[derive(Clone, Copy)]
pub(crate) struct Watched {
    /// The number of views.
    pub count: usize,
    /// The bits of all their masks: each kind of note that one of them hears.
    pub masks: u32,
}

/// Counts the views that watch the document and joins their masks, in one pass.
pub(crate) fn survey(document: &Document, views: &IdTable<View>) -> Watched
    requires named { AreNamed views.now.entries }
    ensures count { result.count ≡ length (watchers document.now.document views.now) }
    ensures masks { result.masks ≡ masks_of (watchers document.now.document views.now) }
{
    let mut count = 0;
    let mut masks = 0;
    for watcher in document.views() {
        if let Some(view) = views.get(*watcher) {
            count += 1;
            masks |= view.mask();
        }
    }
    Watched { count, masks }
}

// Returns how many of the views that watch the document are in the audience of notes of this kind.
fn count(document: &Document, views: &IdTable<View>, audience: Audience, kind: u32) -> usize
    requires named { AreNamed views.now.entries }
    ensures count { result ≡ length (audience_of audience kind (watchers document.now.document views.now)) }
    ensures few { result < 2 ^ 63 }
{
    let mut count = 0;
    for watcher in document.views() {
        if let Some(view) = views.get(*watcher) {
            if is_told(view, audience, kind) {
                count += 1;
            }
        }
    }
    count
}

/// Returns how many of the views that watch the document hear notes of one of the kinds.
pub fn count_hearers(document: &Document, views: &IdTable<View>, kinds: u32) -> usize
    requires named { AreNamed views.now.entries }
    ensures count { result ≡ hearers kinds (watchers document.now.document views.now) }
    ensures few { result < 2 ^ 63 }
{
    count(document, views, Audience::Hearers, kinds)
}

/// Returns whether one of the views that watch the document hears notes of one of the kinds. Inlined, so that the usual
/// answer, that none does, takes a look at each mask alone.
#[inline]
pub fn is_heard(document: &Document, views: &IdTable<View>, kinds: u32) -> bool
    requires named { AreNamed views.now.entries }
    ensures { result ≡ nat_lt 0 (hearers kinds (watchers document.now.document views.now)) }
{
    for watcher in document.views() {
        if let Some(view) = views.get(*watcher) {
            if is_told(view, Audience::Hearers, kinds) {
                return true;
            }
        }
    }
    false
}

/// Returns how many views watch the document.
pub fn count_watchers(document: &Document, views: &IdTable<View>) -> usize
    requires named { AreNamed views.now.entries }
    ensures { result ≡ length (watchers document.now.document views.now) }
{
    count(document, views, Audience::Everyone, 0)
}
