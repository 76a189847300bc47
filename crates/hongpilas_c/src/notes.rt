//! The notes of the last reply.

ghost use Rattle.std.specs.Prelude.{◌≡◌, true, false, nat_lt, length, is_some, slice_get, IfSome};
ghost use Rattle.ed_types.specs.Heard.{with_text};
ghost use Rattle.hongpilas_c.specs.Calls.{reply_of};
ghost use Rattle.hongpilas_c.specs.Told.{IsTold, note_text};
ghost use Rattle.hongpilas_c.specs.Copies.{count_copied, copied};
ghost use Rattle.hongpilas_c.specs.Starts.{start};

use crate::copies::copy_from;
use crate::handle::Handle;
use crate::held::Held;
use crate::starts::start_of;
use ed_types::Note;

/// A note, as C reads it. Fields that its code does not use are 0.
#[repr(C)]
#[derive(Drop)]
pub struct NoteInC {
    /// The id of the view that is notified.
    pub view: u32,
    /// The code of the note: Scintilla's number, such as 2008 for SCN_MODIFIED.
    pub code: u32,
    /// Scintilla's `modificationType`: bits for what changed, and by what.
    pub kind: u32,
    /// The number of a recorded message.
    pub message: u32,
    /// A position, in bytes from 0.
    pub position: i64,
    /// A length, in bytes.
    pub length: i64,
    /// Scintilla's `linesAdded`: the change of the number of lines, negative if lines were removed.
    pub lines: i64,
    /// A line, from 0; -1 for all lines.
    pub line: i64,
    /// A fold level after a change: Scintilla's `foldLevelNow`.
    pub now: i64,
    /// The fold level before it: Scintilla's `foldLevelPrev`.
    pub prev: i64,
    /// The token of a container's own undo step.
    pub token: i64,
    /// The first argument of a recorded message, as it was sent.
    pub w: i64,
    /// The second argument of a recorded message, as it was sent.
    pub l: i64,
    /// The address of the note's text. It is valid until the next message that is done. If the length is 0, it means
    /// nothing.
    pub text: *const u8,
    /// The length of the text, in bytes.
    pub text_length: usize,
}

/// Returns a note with its text, as C reads it.
fn in_c(note: &Note, text: &[u8]) -> NoteInC
    ensures told { IsTold result (with_text note.entry.now text.now) }
    ensures text { result.text ≡ start text.entry }
{
    NoteInC {
        view: note.view,
        code: note.code,
        kind: note.kind,
        message: note.message,
        position: note.position,
        length: note.length,
        lines: note.lines,
        line: note.line,
        now: note.now,
        prev: note.prev,
        token: note.token,
        w: note.w,
        l: note.l,
        text: start_of(text),
        text_length: text.len(),
    }
}

impl Held {
    /// Writes a note of the reply to `out`, if there is one with this index, and returns whether there is.
    fn tell(&self, index: usize, out: &mut NoteInC) -> bool
        ensures found { result ≡ nat_lt index (length self.now.reply.notes) }
        ensures told { result ≡ true → IfSome (slice_get self.now.reply.notes index) (IsTold out.new) }
        ensures kept { result ≡ false → out.new ≡ out.old }
    {
        if index < self.reply.note_count() {
            let (note, text) = self.reply.note(index);
            *out = in_c(note, text);
            true
        } else {
            false
        }
    }

    /// Copies the text of a note of the reply, and returns how many bytes that is: 0 if there is no such note.
    fn copy_note_text(&self, index: usize, start: usize, into: &mut [u8]) -> usize
        ensures count { result ≡ count_copied (note_text self.now.reply index) start into.old }
        ensures copied { into.new ≡ copied (note_text self.now.reply index) start into.old }
    {
        if index < self.reply.note_count() {
            let (_, text) = self.reply.note(index);
            copy_from(text, start, into)
        } else {
            copy_from(&[], start, into)
        }
    }
}

/// Writes the note of the last reply with this index, from 0, to `note`, and returns whether there is one.
#[unsafe(no_mangle)]
pub extern "C" fn hongpilas_note_unchecked(
    handle: &mut Handle,
    index: usize,
    note: &mut NoteInC,
) -> bool
    requires { is_some handle.old.held ≡ true }
    ensures found { result ≡ nat_lt index (length (reply_of handle.old.held).notes) }
    ensures told { result ≡ true → IfSome (slice_get (reply_of handle.old.held).notes index) (IsTold note.new) }
    ensures same { handle.new.held ≡ handle.old.held }
    ensures note_kept { result ≡ false → note.new ≡ note.old }
{
    let held = handle.held();
    held.tell(index, note)
}

/// Copies the text of a note of the last reply from `start` on, as many bytes as there are and as fit, and returns how
/// many that is: 0 if there is no such note.
#[unsafe(no_mangle)]
pub extern "C" fn hongpilas_copy_note_text_unchecked(
    handle: &mut Handle,
    index: usize,
    start: usize,
    into: &mut [u8],
) -> usize
    requires { is_some handle.old.held ≡ true }
    ensures count { result ≡ count_copied (note_text (reply_of handle.old.held) index) start into.old }
    ensures copied { into.new ≡ copied (note_text (reply_of handle.old.held) index) start into.old }
    ensures same { handle.new.held ≡ handle.old.held }
{
    let held = handle.held();
    held.copy_note_text(index, start, into)
}
