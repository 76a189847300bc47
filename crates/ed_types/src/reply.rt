//! Replies and the notes that come with them.

ghost use Rattle.std.specs.Prelude.{◌≡◌, ◌<◌, [], length, slice_get, slice_range};
ghost use Rattle.ed_types.specs.Heard.{heard_in, with_text};

use crate::bytes::Bytes;
use std::alloc::Global;
use std::marker::Model;
use std::ops::Range;

/// The greatest capacity, in bytes, of a text's buffer that a reply keeps once it has no text. Most lines are shorter, so that reading lines, with
/// other messages between them, allocates nothing; and a session keeps at most one page beyond its last reply.
const MOST_KEPT: usize = 4096;

/// A note: a notification that a view gets. Fields that its code does not name are 0, and its text is empty.
#[derive(Debug, Drop)]
pub struct Note {
    /// The view that gets it.
    pub view: u32,
    /// The number of the notification, such as 2008 for `SCN_MODIFIED`.
    pub code: u32,
    /// The bits of Scintilla's `modificationType`.
    pub kind: u32,
    /// A position in bytes, from 0.
    pub position: i64,
    /// A length, in bytes.
    pub length: i64,
    /// By how many lines the text grew; negative if it shrank.
    pub lines: i64,
    /// A line, from 0.
    pub line: i64,
    /// The fold level after a change.
    pub now: i64,
    /// The fold level before a change.
    pub prev: i64,
    /// The token of a container's own undo step.
    pub token: i64,
    /// The number of the recorded message.
    pub message: u32,
    /// The first argument of the recorded message, as it was sent.
    pub w: i64,
    /// The second argument of the recorded message, as it was sent.
    pub l: i64,
    /// The range of the note's text in the pool of its reply, in bytes.
    pub text: Range<usize>,
}

/// The answer to a message: a value, a text, and notes in order. The notes share one pool of texts, so that a text that
/// several views get is stored once. A contract sees each note with its own text.
#[derive(Debug, Drop)]
pub struct Reply {
    value: i64,
    text: Bytes,
    notes: Vec<Note>,
    pool: Bytes,
}

impl Model for Reply {
    ghost use Rattle.ed_types.specs.Notices.{Response};

    ghost Value = { Response };

    ghost use Rattle.ed_types.specs.Heard.{heard_in};

    ghost view = { λ r. record { value = r.value; text = r.text; notes = heard_in r.pool r.notes.items } };
}

impl Reply {
    /// Returns a reply with a value and a text, and no notes. Allocates nothing.
    pub fn quiet(alloc: Global, value: i64, text: Bytes) -> Self
        ensures { result ≡ record { value = value; text = text; notes = [] } }
    {
        Reply::new(value, text, Vec::new(alloc), Bytes::empty(alloc))
    }

    /// Returns a reply with a value, a text, and notes whose texts are ranges of `pool`. Allocates nothing.
    pub fn new(value: i64, text: Bytes, notes: Vec<Note>, pool: Bytes) -> Self
        ensures { result ≡ record { value = value; text = text; notes = heard_in pool notes.items } }
    {
        Reply {
            value,
            text,
            notes,
            pool,
        }
    }

    /// Removes the text and the notes.
    fn clear(&mut self)
        ensures { self.new ≡ record { value = self.old.value; text = []; notes = [] } }
    {
        self.text.clear(MOST_KEPT);
        self.notes.clear();
        self.notes.shrink_to_fit();
        self.pool.clear(0);
    }

    /// Replaces the reply by a value alone. A small buffer of its text is kept for the next text; all other memory is
    /// freed.
    pub fn answer(&mut self, value: i64)
        ensures { self.new ≡ record { value = value; text = []; notes = [] } }
    {
        let place = &mut self.value;
        *place = value;
        if !self.text().is_empty() || self.note_count() > 0 {
            self.clear();
        }
    }

    /// Replaces the text, and returns the one before it, in its buffer. The value and the notes stay.
    pub fn replace_text(&mut self, text: Bytes) -> Bytes
        ensures before { result ≡ self.old.text }
        ensures replaced { self.new ≡ record self.old { text = text } }
    {
        std::mem::replace(&mut self.text, text)
    }

    /// Returns the value of the answer.
    pub fn value(&self) -> i64
        ensures { result ≡ self.now.value }
    {
        self.value
    }

    /// Returns the text that the message handed out, or an empty one if it hands out none.
    pub fn text(&self) -> &[u8]
        ensures { result.now ≡ self.now.text }
    {
        self.text.as_slice()
    }

    /// Returns the number of notes.
    pub fn note_count(&self) -> usize
        ensures { result ≡ length self.now.notes }
    {
        self.notes.len()
    }

    /// Returns the note at `index`, counted from 0, and its text.
    pub fn note(&self, index: usize) -> (&Note, &[u8])
        requires { index < length self.now.notes }
        ensures { slice_get self.now.notes index ≡ Some (with_text result.0.now result.1.now) }
    {
        let note = &self.notes[index];
        (
            note,
            part_of(self.pool.as_slice(), note.text.start, note.text.end),
        )
    }
}

/// Returns the bytes from `start` up to `end`, as far as there are any.
fn part_of(bytes: &[u8], start: usize, end: usize) -> &[u8]
    ensures { result.now ≡ slice_range bytes.now start end }
{
    let end = end.min(bytes.len());
    if start < end { &bytes[start..end] } else { &[] }
}
