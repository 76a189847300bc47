//! The notes of a reply and their texts: `reserve` succeeds where there is memory.

use ed_types::{Bytes, Note, Reply, notification};
use notify::{NoteList, blank};
use std::process::Abort;

// Returns a note to a view.
fn note_to(view: u32) -> Note {
    let mut note = blank(notification::MODIFIED);
    note.view = view;
    note
}

// One function owns the notes and lends them to others, which do the rest: owning them over many calls makes a proof
// slow.
fn put_three(rt: &impl Abort, notes: &mut NoteList) {
    notes.reserve(3, 5).expect(rt, "memory");
    notes.put(note_to(1), b"abc");
    notes.put_again(note_to(2));
    notes.put_halves(note_to(3), b"d", b"e");
}

// Asserts that the note at `index` is for this view and has this text.
fn assert_note(rt: &impl Abort, reply: &Reply, index: usize, view: u32, text: &[u8]) {
    assert!(rt; index < reply.note_count());
    let (note, its) = reply.note(index);
    assert_eq!(rt; note.view, view);
    assert_eq!(rt; its, text);
}

fn assert_three(rt: &impl Abort, reply: &Reply) {
    assert_eq!(rt; reply.note_count(), 3);
    assert_note(rt, reply, 0, 1, b"abc");
    assert_note(rt, reply, 1, 2, b"abc");
    assert_note(rt, reply, 2, 3, b"de");
}

#[test]
fn notes_with_their_texts(rt: HostRuntime) {
    let mut notes = NoteList::new(rt.alloc());
    put_three(&rt, &mut notes);
    let reply = notes.finish(7, Bytes::empty(rt.alloc()));
    assert_three(&rt, &reply);
}
